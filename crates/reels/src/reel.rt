// A reel: what the four words of a record mean, which are good to read, and which may be packed.
ghost use Rattle.std.specs.Prelude.{◌≡◌};
ghost use Rattle.layout.specs.Refusal.{answer_of};
ghost use Rattle.reels.specs.Reel.{reel_of, words_of, shelf_b, allowed_b, reel_fault, speedless_b, pack_fault, unused_b};

use layout::Refusal;

#[derive(Clone, Copy, PartialEq, Eq, Debug)]
pub struct Reel {
    pub shelf: u64,
    pub carrier: u64,
    pub speed: u64,
    pub seconds: u64,
}

// The reel that four words name, good or not.
pub fn reel_of(words: [u64; 4]) -> Reel
    ensures { result ≡ reel_of words }
{
    let [shelf, carrier, speed, seconds] = words;
    Reel {
        shelf,
        carrier,
        speed,
        seconds,
    }
}

// The four words that name a reel, good or not.
pub fn words_of(reel: Reel) -> [u64; 4]
    ensures { result ≡ words_of reel }
{
    [reel.shelf, reel.carrier, reel.speed, reel.seconds]
}

// Whether the carrier is known and, on reading, takes the speed code.
fn allowed(carrier: u64, speed: u64) -> bool
    ensures { result ≡ allowed_b carrier speed }
{
    matches!((carrier, speed), (1, 0..=5) | (2, 0..=1) | (3, 0))
}

// Whether a shelf number is in range.
pub fn shelved(number: u64) -> bool
    ensures { result ≡ shelf_b number }
{
    (1..=999_999).contains(&number)
}

// Whether it is an open reel without a speed.
pub fn speedless(reel: Reel) -> bool
    ensures { result ≡ speedless_b reel }
{
    (reel.carrier == 1) & (reel.speed == 0)
}

// Refusal 15, 16 or 17 of a reel that is not good to read, by its first bad word.
#[tactic(auto, unfolding(crate::specs::Reel::reel_fault, layout::specs::Checks::first, layout::specs::Checks::answered, layout::specs::Refusal::cause))]
pub fn check_reel(reel: Reel) -> Result<(), Refusal>
    ensures { result ≡ answer_of (reel_fault reel) tt }
{
    if !shelved(reel.shelf) {
        return Err(Refusal::WrongShelf);
    }
    if !allowed(reel.carrier, reel.speed) {
        return Err(Refusal::WrongSpeed);
    }
    if reel.seconds <= 359999 {
        Ok(())
    } else {
        Err(Refusal::WrongSeconds)
    }
}

// The same of a reel that is packed or written: an open reel needs a speed then.
#[tactic(auto, unfolding(crate::specs::Reel::reel_fault, crate::specs::Reel::pack_fault, layout::specs::Checks::first, layout::specs::Checks::answered, layout::specs::Refusal::cause))]
pub fn check_packing(reel: Reel) -> Result<(), Refusal>
    ensures { result ≡ answer_of (pack_fault reel) tt }
{
    if shelved(reel.shelf) && speedless(reel) {
        return Err(Refusal::WrongSpeed);
    }
    check_reel(reel)
}

// Whether four words are those of an unused record.
pub fn unused(words: [u64; 4]) -> bool
    ensures { result ≡ unused_b words }
{
    words == [0; 4]
}
