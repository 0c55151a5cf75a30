// Scans of the persist numbers of an image's slots. For the crates above: N and the number of slots are small, which their checks have
// shown.
ghost use Rattle.std.specs.Prelude.{◌≡◌, ◌≤◌, ◌<◌};
ghost use Rattle.layout.specs.Image.{persist_at, occupied_b};
ghost use Rattle.layout.specs.Oldest.{oldest_of, some_oldest};

use layout::{Oldest, older, slot_word};

// The oldest log of the first `slots` slots.
pub fn oldest_log(image: &[u64], n: u64, slots: u64) -> Option<Oldest>
    requires { (n ≤ 256) × (slots ≤ 32) }
    ensures { result ≡ some_oldest (oldest_of (persist_at image.now n) slots) }
{
    let mut best = None;
    for i in 0..slots {
        best = older(best, slot_word(image, n, i, 0), i);
    }
    best
}

// Whether one of the first `slots` slots is occupied.
pub fn occupied(image: &[u64], n: u64, slots: u64) -> bool
    requires { (n ≤ 256) × (slots ≤ 32) }
    ensures { result ≡ occupied_b image.now n slots }
{
    (0..slots).any(|i| slot_word(image, n, i, 0) != 0)
}
