// Recover: the sound log that was cut off is replayed. An unsound log or two that tie are refused, by their place.
ghost use Rattle.std.specs.Prelude.{true, ◌≡◌, ◌≤◌, length};
ghost use Rattle.layout.specs.Entries.{made, listed};
ghost use Rattle.layout.specs.Image.{shaped_b};
ghost use Rattle.layout.specs.Search.{within};
ghost use Rattle.recovery.specs.Recover.{slots_of, unsound_place, tied_below, ties_b, logs_answer};
ghost use Rattle.recovery.specs.Recover.{recover_entries, recovered_by, recover_reply, recover_said};
ghost use Rattle.recovery.specs.Told.{recover_told};

use layout::{Oldest, Refusal};

// The persist number of the log that was replayed, none of a clean image; and the number of entries in the trace.
#[derive(Clone, Copy)]
pub struct RecoverReply {
    pub answer: Result<Option<u64>, Refusal>,
    pub entries: u64,
}

// The lowest place of an occupied slot that is not sound, if there is one.
fn unsound_place(image: &[u64]) -> Option<u64>
    requires { shaped_b image.now ≡ true }
    ensures { result ≡ within (slots_of image.now) (unsound_place image.now) }
{
    let n = layout::word(image, 1);
    let slots = 2 * layout::word(image, 2);
    (0..slots).find(|p| journal::unsound(image, n, *p))
}

// Whether the slot at place p is tied with one at a lower place.
fn tied_below(image: &[u64], p: u64) -> bool
    requires { (shaped_b image.now ≡ true) × (p ≤ 32) }
    ensures { result ≡ tied_below image.now p }
{
    let n = layout::word(image, 1);
    (0..p).any(|q| journal::tied(image, n, p, q))
}

// Whether two occupied slots have equal persist numbers and a record in common.
fn ties(image: &[u64]) -> bool
    requires { shaped_b image.now ≡ true }
    ensures { result ≡ ties_b image.now }
{
    let slots = 2 * layout::word(image, 2);
    (0..slots).any(|p| tied_below(image, p))
}

// Refusal 1, 3, 12 with the lowest unsound place, or 13.
#[tactic(auto, unfolding(crate::specs::Recover::recover_fault, layout::specs::Checks::first, layout::specs::Checks::answered, layout::specs::Refusal::cause))]
fn check_logs(image: &[u64], len: usize) -> Result<(), Refusal>
    ensures { result ≡ logs_answer image.now len }
{
    if !layout::shaped(image) {
        return Err(Refusal::WrongImage);
    }
    if len < 48 {
        return Err(Refusal::ShortTrace);
    }
    if let Some(place) = unsound_place(image) {
        return Err(Refusal::LogUnsound(place));
    }
    if ties(image) {
        Err(Refusal::LogsTied)
    } else {
        Ok(())
    }
}

// The persist number of the oldest log, if there is one, and the number of entries.
fn replay(image: &mut [u64], trace: &mut [u64]) -> Result<(Option<u64>, u64), Refusal>
    ensures given { result ≡ recovered_by (recover_reply image.old (length trace.old)) }
    ensures image { image.new
        ≡ made (recover_entries image.old (length trace.old)) image.old }
    ensures trace { trace.new
        ≡ listed (recover_entries image.old (length trace.old)) trace.old }
{
    check_logs(image, trace.len())?;
    let n = layout::word(image, 1);
    let oldest = journal::oldest_log(image, n, 2 * layout::word(image, 2));
    let Some(Oldest { number, place }) = oldest else {
        return Ok((None, 0));
    };
    let entries = journal::replay_length(image, n, place);
    let slot = layout::slot_at(n, place) as usize;
    let a = journal::put_denoted(image, trace, n, place);
    let b = layout::put_fence(trace, a);
    let c = layout::put_store(image, 0, trace, b, slot, 0);
    layout::put_fence(trace, c);
    Ok((Some(number), entries))
}

// Replays the oldest log, if there is one, and empties its slot.
pub fn recover(image: &mut [u64], trace: &mut [u64]) -> RecoverReply
    ensures reply { result ≡ recover_reply image.old (length trace.old) }
    ensures image { image.new
        ≡ made (recover_entries image.old (length trace.old)) image.old }
    ensures trace { trace.new
        ≡ listed (recover_entries image.old (length trace.old)) trace.old }
    ensures told { recover_told result.answer ≡ recover_said image.old (length trace.old) }
{
    match replay(image, trace) {
        Ok((answer, entries)) => RecoverReply {
            answer: Ok(answer),
            entries,
        },
        Err(refusal) => RecoverReply {
            answer: Err(refusal),
            entries: 0,
        },
    }
}
