// The totals over all records, in one pass.
ghost use Rattle.std.specs.Prelude.{◌≡◌, ◌≤◌};
ghost use Rattle.layout.specs.Image.{records_of};
ghost use Rattle.report.specs.Report.{filled};

use crate::counting::{RecordKind, kind};

// Over all three carriers the reels and their seconds; the bad records, and the unused ones.
#[derive(Clone, Copy, PartialEq, Eq, Debug)]
pub struct Totals {
    pub reels: u64,
    pub seconds: u64,
    pub bad: u64,
    pub unused: u64,
}

pub fn sum_up(image: &[u64]) -> Totals
    requires { records_of image.now ≤ 256 }
    ensures { result ≡ filled image.now }
{
    let mut totals = Totals {
        reels: 0,
        seconds: 0,
        bad: 0,
        unused: 0,
    };
    for r in 0..layout::word(image, 1) {
        match kind(layout::home_words(image, r)) {
            RecordKind::Unused => totals.unused += 1,
            RecordKind::Reel(reel) => {
                totals.reels += 1;
                totals.seconds += reel.seconds;
            }
            RecordKind::Bad => totals.bad += 1,
        }
    }
    totals
}
