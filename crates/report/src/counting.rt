// What a record counts as in the report, by what its words unpack to.
ghost use Rattle.std.specs.Prelude.{◌≡◌};
ghost use Rattle.report.specs.Changes.{counted_as};

use reels::{Contents, Reel};

#[derive(Clone, Copy, PartialEq, Eq, Debug)]
pub enum RecordKind {
    Unused,
    Reel(Reel),
    Bad,
}

#[tactic(auto, unfolding(crate::specs::Changes::counted_as, reels::specs::Unpack::unpack_reply))]
pub fn kind(words: [u64; 4]) -> RecordKind
    ensures { result ≡ counted_as words }
{
    match reels::unpack(words) {
        Err(_) => RecordKind::Bad,
        Ok(Contents::Unused) => RecordKind::Unused,
        Ok(Contents::Found(reel) | Contents::SpeedToFind(reel)) => RecordKind::Reel(reel),
    }
}
