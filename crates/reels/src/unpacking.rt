// Unpack: the reel that the four words of a record name.
ghost use Rattle.std.specs.Prelude.{◌≡◌};
ghost use Rattle.reels.specs.Unpack.{unpack_reply, words_said};
ghost use Rattle.reels.specs.Told.{reel_told};

use crate::reel::{Reel, check_reel, reel_of, speedless, unused};
use layout::Refusal;

// What the words of a record are: unused, or a reel; of an open reel without a speed that is still to find.
#[derive(Clone, Copy, PartialEq, Eq, Debug)]
pub enum Contents {
    Unused,
    Found(Reel),
    SpeedToFind(Reel),
}

// Unpacks the four words of a record.
pub fn unpack(words: [u64; 4]) -> Result<Contents, Refusal>
    ensures reply { result ≡ unpack_reply words }
    ensures told { reel_told result ≡ words_said words }
{
    if unused(words) {
        return Ok(Contents::Unused);
    }
    let reel = reel_of(words);
    check_reel(reel)?;
    if speedless(reel) {
        return Ok(Contents::SpeedToFind(reel));
    }
    Ok(Contents::Found(reel))
}
