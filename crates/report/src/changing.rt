// The changes of the table: a line begins afresh, and what each record changes.
ghost use Rattle.std.specs.Prelude.{◌≡◌, ◌≤◌};
ghost use Rattle.report.specs.Changes.{afresh, change_at};

use crate::counting::{RecordKind, kind};
use crate::line::Change;

// The change by which a line begins afresh.
pub fn afresh(line: u64) -> Change
    ensures { result ≡ afresh line }
{
    Change {
        line,
        keep: 0,
        reels: 0,
        seconds: 0,
    }
}

// The change that record r makes; none where it is no reel.
#[tactic(auto, using(crate::proofs::Changed::reel_carrier, crate::proofs::Changed::reel_changes, crate::proofs::Changed::other_stays))]
pub fn change_at(image: &[u64], r: u64) -> Option<Change>
    requires { r ≤ 255 }
    ensures { result ≡ change_at image.now r }
{
    match kind(layout::home_words(image, r)) {
        RecordKind::Reel(reel) => Some(Change {
            line: reel.carrier - 1,
            keep: 1,
            reels: 1,
            seconds: reel.seconds,
        }),
        RecordKind::Unused | RecordKind::Bad => None,
    }
}
