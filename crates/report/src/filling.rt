// The table is filled: its three lines begin afresh, then each reel is added to the line of its carrier.
ghost use Rattle.std.specs.Prelude.{◌≡◌, ◌≤◌, length};
ghost use Rattle.layout.specs.Image.{records_of};
ghost use Rattle.report.specs.Lines.{begun};
ghost use Rattle.report.specs.Report.{table_to};

use crate::changing::{afresh, change_at};
use crate::line::{CarrierLine, update};

// The first three lines begin afresh.
#[tactic(auto, using(crate::proofs::Table::begun_more))]
pub fn begin_lines(lines: &mut [CarrierLine])
    requires { 3 ≤ length lines.old }
    ensures { lines.new ≡ begun 3 lines.old }
{
    for line in 0..3 {
        update(lines, afresh(line));
    }
}

// Each reel is added to the line of its carrier, which has begun afresh; other records change nothing.
#[tactic(auto, using(crate::proofs::Table::begun_table, crate::proofs::Table::can_change, crate::proofs::Table::some_change, crate::proofs::Table::no_change))]
pub fn add_records(image: &[u64], lines: &mut [CarrierLine])
    requires { (records_of image.now ≤ 256) × (lines.old ≡ begun 3 lines.old) }
    ensures { lines.new ≡ table_to image.now (records_of image.now) lines.old }
{
    for r in 0..layout::word(image, 1) {
        if let Some(change) = change_at(image, r) {
            update(lines, change);
        }
    }
}
