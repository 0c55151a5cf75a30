// Index arithmetic and reads of an image's parts. For the crates above: N and places are small, which their checks have shown.
ghost use Rattle.std.specs.Prelude.{◌≡◌, ◌≤◌, ◌<◌};
ghost use Rattle.layout.specs.Image.{home_at, home_words, slot_at, slot_word};

use crate::image::word;

// The index of a record's first word.
pub fn home_at(rec: u64) -> u64
    requires { rec ≤ 256 }
    ensures { result ≡ home_at rec }
{
    4 + 4 * rec
}

// The index of the first word of the slot at a place.
pub fn slot_at(n: u64, place: u64) -> u64
    requires { (n ≤ 256) × (place ≤ 32) }
    ensures { result ≡ slot_at n place }
{
    4 + 4 * n + 22 * place
}

// Word w of the slot at a place.
pub fn slot_word(image: &[u64], n: u64, place: u64, w: u64) -> u64
    requires { (n ≤ 256) × (place ≤ 32) × (w < 22) }
    ensures { result ≡ slot_word image.now n place w }
{
    word(image, slot_at(n, place) + w)
}

// A home record.
pub fn home_words(image: &[u64], rec: u64) -> [u64; 4]
    requires { rec ≤ 256 }
    ensures { result ≡ home_words image.now rec }
{
    let i = home_at(rec);
    [
        word(image, i),
        word(image, i + 1),
        word(image, i + 2),
        word(image, i + 3),
    ]
}
