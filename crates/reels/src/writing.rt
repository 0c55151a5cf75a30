// Write: a reel through the store.
ghost use Rattle.std.specs.Prelude.{◌≡◌};
ghost use Rattle.snapshot.specs.Told.{write_told};
ghost use Rattle.reels.specs.Write.{write_reel_reply, write_reel_said};

use crate::packing::pack;
use crate::reel::Reel;
use store::{Desk, Reply};

// Writes a reel to the session's copy of a record; a reel that cannot be packed is refused before any check of the store.
pub fn write(image: &[u64], desk: Desk, session: u64, rec: u64, reel: Reel) -> Reply<()>
    ensures reply { result ≡ write_reel_reply image.now desk session rec reel }
    ensures told { write_told result.answer ≡ write_reel_said image.now desk session rec reel }
{
    match pack(reel) {
        Ok(words) => store::write(image, desk, session, rec, words),
        Err(refusal) => Reply {
            answer: Err(refusal),
            desk,
        },
    }
}
