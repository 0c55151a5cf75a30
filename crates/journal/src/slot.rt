// A log slot of an image, read by its words.
ghost use Rattle.std.specs.Prelude.{◌≡◌, ◌≤◌, ◌<◌};
ghost use Rattle.layout.specs.Image.{slot_word};

// The slot at a place of an image with n records.
#[derive(Clone, Copy)]
pub struct LogSlot<'a> {
    pub image: &'a [u64],
    pub n: u64,
    pub place: u64,
    pub ghost in_range: { (n ≤ 256) × (place ≤ 32) },
}

impl LogSlot<'_> {
    // Word w.
    pub fn word(&self, w: u64) -> u64
        requires { w < 22 }
        ensures { result ≡ slot_word self.now.image.now self.now.n self.now.place w }
    {
        layout::slot_word(self.image, self.n, self.place, w)
    }
}
