// The checks of the report.
ghost use Rattle.std.specs.Prelude.{◌≡◌};
ghost use Rattle.layout.specs.Refusal.{answer_of};
ghost use Rattle.report.specs.Report.{report_fault};

use layout::Refusal;

// Refusal 1, 11 and 20, in this order; `room` is how many lines the table has.
#[tactic(auto, unfolding(crate::specs::Report::report_fault, layout::specs::Checks::first, layout::specs::Checks::answered, layout::specs::Refusal::cause))]
pub fn check_report(image: &[u64], room: usize) -> Result<(), Refusal>
    ensures { result ≡ answer_of (report_fault image.now room) tt }
{
    if !layout::shaped(image) {
        return Err(Refusal::WrongImage);
    }
    let n = layout::word(image, 1);
    let m = layout::word(image, 2);
    if journal::occupied(image, n, 2 * m) {
        return Err(Refusal::SlotOccupied);
    }
    if room < 3 {
        Err(Refusal::ShortTable)
    } else {
        Ok(())
    }
}
