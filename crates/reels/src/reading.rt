// Read: a record through the store, and the reel that its words name.
ghost use Rattle.std.specs.Prelude.{◌≡◌};
ghost use Rattle.snapshot.specs.Read.{read_said};
ghost use Rattle.reels.specs.Read.{from_told, read_reel_reply, read_reel_said, source_told};
ghost use Rattle.reels.specs.Told.{reel_told};

use crate::unpacking::{Contents, unpack};
use layout::Refusal;
use store::{Desk, Reply, Source};

// The source is told where the words are bad, too: own, copy or home, or the store's refusal.
#[derive(Clone, Copy)]
pub struct ReadReelReply {
    pub answer: Result<Contents, Refusal>,
    pub source: Result<Source, Refusal>,
    pub desk: Desk,
}

// Reads a reel in the session's snapshot.
pub fn read(image: &[u64], desk: Desk, session: u64, rec: u64) -> ReadReelReply
    ensures reply { result ≡ read_reel_reply image.now desk session rec }
    ensures told { reel_told result.answer ≡ read_reel_said image.now desk session rec }
    ensures source { source_told (from_told result.source) ≡ source_told (read_said image.now desk session rec) }
{
    let Reply { answer, desk } = store::read(image, desk, session, rec);
    match answer {
        Ok(sight) => ReadReelReply {
            answer: unpack(sight.words),
            source: Ok(sight.source),
            desk,
        },
        Err(refusal) => ReadReelReply {
            answer: Err(refusal),
            source: Err(refusal),
            desk,
        },
    }
}
