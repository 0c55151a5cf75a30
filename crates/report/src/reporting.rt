// The report.
ghost use Rattle.std.specs.Prelude.{◌≡◌, length, replicate};
ghost use Rattle.report.specs.Lines.{line_of};
ghost use Rattle.report.specs.Report.{reported, report_reply, report_said};
ghost use Rattle.report.specs.Told.{report_told};

use crate::checking::check_report;
use crate::filling::{add_records, begin_lines};
use crate::line::CarrierLine;
use crate::summing::{Totals, sum_up};
use layout::Refusal;

// What the report answers, and the table behind it: the lines of carriers 1 to 3.
#[derive(Clone, Copy)]
pub struct FilledTable {
    pub totals: Result<Totals, Refusal>,
    pub lines: [CarrierLine; 3],
}

// Fills the first three lines from a clean image, that of carrier 1 first, and answers the totals. Refused, it leaves the table as it was.
pub fn report(image: &[u64], lines: &mut [CarrierLine]) -> Result<Totals, Refusal>
    ensures { (result ≡ report_reply image.now (length lines.old))
        × (lines.new ≡ reported image.now lines.old)
        × (report_told result ≡ report_said image.now (length lines.old)) }
{
    check_report(image, lines.len())?;
    begin_lines(lines);
    add_records(image, lines);
    Ok(sum_up(image))
}

// The report for a caller that holds no table: one of three zero lines is made, lent to `report` and given back with the answer.
pub fn fill_table(image: &[u64]) -> FilledTable
    ensures { (result.totals ≡ report_reply image.now 3)
        × (result.lines ≡ reported image.now (replicate 3 (line_of 0 0)))
        × (report_told result.totals ≡ report_said image.now 3) }
{
    let mut lines = [CarrierLine {
        reels: 0,
        seconds: 0,
    }; 3];
    let totals = report(image, &mut lines);
    FilledTable { totals, lines }
}
