// Opening an image: it gives a fresh desk, and raises the ceiling above its clock. The number of entries goes with the answer.
ghost use Rattle.std.specs.Prelude.{◌≡◌, length};
ghost use Rattle.layout.specs.Entries.{made, listed};
ghost use Rattle.layout.specs.Refusal.{answer_of};
ghost use Rattle.recovery.specs.Open.{open_fault, open_entries, open_reply, open_said, fresh_desk};
ghost use Rattle.recovery.specs.Told.{open_told};

use desk::{Desk, LIMIT, Session, StoringReply};
use layout::Refusal;

// A desk with this clock, N and M, all idle, unmarked, nobody listed.
fn fresh(clock: u64, n: u64, m: u64) -> Desk
    ensures { result ≡ fresh_desk clock n m }
{
    Desk {
        clock,
        n,
        m,
        holders: [0; 256],
        sessions: [Session::idle(); 16],
        order: [0; 16],
    }
}

// Refusal 1, 3, 11 or 10.
#[tactic(auto, unfolding(crate::specs::Open::open_fault, layout::specs::Checks::first, layout::specs::Checks::answered, layout::specs::Refusal::cause))]
fn check_opening(image: &[u64], len: usize) -> Result<(), Refusal>
    ensures { result ≡ answer_of (open_fault image.now len) tt }
{
    if !layout::shaped(image) {
        return Err(Refusal::WrongImage);
    }
    if len < 48 {
        return Err(Refusal::ShortTrace);
    }
    let n = layout::word(image, 1);
    let m = layout::word(image, 2);
    if journal::occupied(image, n, 2 * m) {
        return Err(Refusal::SlotOccupied);
    }
    if layout::word(image, 3) < LIMIT {
        Ok(())
    } else {
        Err(Refusal::ClockAtLimit)
    }
}

// Opens an image with all slots empty: a desk with the ceiling + 1 as its clock, all idle.
pub fn open(image: &mut [u64], trace: &mut [u64]) -> StoringReply<()>
    ensures reply { result ≡ open_reply image.old (length trace.old) }
    ensures image { image.new
        ≡ made (open_entries image.old (length trace.old)) image.old }
    ensures trace { trace.new
        ≡ listed (open_entries image.old (length trace.old)) trace.old }
    ensures told { open_told result.answer ≡ open_said image.old (length trace.old) }
{
    if let Err(refusal) = check_opening(image, trace.len()) {
        return StoringReply {
            answer: Err(refusal),
            entries: 0,
            desk: fresh(0, 0, 0),
        };
    }
    let n = layout::word(image, 1);
    let m = layout::word(image, 2);
    let clock = layout::word(image, 3) + 1;
    let entries = layout::raise(image, trace, clock);
    StoringReply {
        answer: Ok(()),
        entries,
        desk: fresh(clock, n, m),
    }
}
