// The report on a table of some lines: it is lent the first `room` of five.
ghost use Rattle.std.specs.Prelude.{◌≡◌, ◌++◌, ◌≤◌, take, drop};
ghost use Rattle.report.specs.Report.{reported, report_reply};

use layout::Refusal;
use report::{CarrierLine, Totals};

// What the report answers, and the five lines afterwards.
#[derive(Clone, Copy)]
pub struct Table {
    pub totals: Result<Totals, Refusal>,
    pub lines: [CarrierLine; 5],
}

// Five lines, of which the first `room` are lent to the report.
pub fn fill(image: &[u64], given: [CarrierLine; 5], room: usize) -> Table
    requires { room ≤ 5 }
    ensures { (result.totals ≡ report_reply image.now room)
        × (result.lines ≡ reported image.now (take room given) ++ drop room given) }
{
    let mut lines = given;
    let totals = report::report(image, &mut lines[..room]);
    Table { totals, lines }
}
