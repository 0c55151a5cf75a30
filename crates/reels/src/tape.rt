// The tape length of a record, in metres.
ghost use Rattle.std.specs.Prelude.{◌≡◌, true, ◌≤◌};
ghost use Rattle.reels.specs.Reel.{good_b};
ghost use Rattle.reels.specs.Length.{metres_of, good_length, length_answer, length_said};
ghost use Rattle.reels.specs.Told.{length_told};

use crate::reel::Reel;
use crate::unpacking::{Contents, unpack};
use layout::Refusal;

// Tenths of a millimetre per second, by the speed code; 0 is unknown.
const SPEEDS: [u64; 6] = [0, 476, 953, 1905, 3810, 7620];

fn metres(seconds: u64, code: u64) -> u64
    requires { (seconds ≤ 359999) × (code ≤ 5) }
    ensures { result ≡ metres_of seconds code }
{
    seconds * SPEEDS[code as usize] / 10_000
}

// The length of a reel that is good to read; none where its speed is unknown.
fn good_length(reel: Reel) -> Option<u64>
    requires { good_b reel ≡ true }
    ensures { result ≡ good_length reel }
{
    if reel.speed == 0 {
        return None;
    }
    Some(metres(reel.seconds, reel.speed))
}

// The tape length of a record by its four words, in metres; none where it is unknown.
pub fn tape_length(words: [u64; 4]) -> Result<Option<u64>, Refusal>
    ensures answer { result ≡ length_answer words }
    ensures told { length_told result ≡ length_said words }
{
    match unpack(words)? {
        Contents::Found(reel) => Ok(good_length(reel)),
        Contents::Unused | Contents::SpeedToFind(_) => Ok(None),
    }
}
