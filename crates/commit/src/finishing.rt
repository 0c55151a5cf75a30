// Finish: the persist number, none where there was nothing to store; and the number of entries.
ghost use Rattle.std.specs.Prelude.{ℕ, ◌≡◌, ◌||◌, ltb, eqb, length};
ghost use Rattle.layout.specs.Checks.{unless, first, room_for};
ghost use Rattle.layout.specs.Entries.{made, listed};
ghost use Rattle.layout.specs.Refusal.{answer_of};
ghost use Rattle.desk.specs.Coherent.{limit};
ghost use Rattle.desk.specs.Desk.{session_at, is_active};
ghost use Rattle.desk.specs.Entering.{image_fault};
ghost use Rattle.desk.specs.Replies.{given_by};
ghost use Rattle.journal.specs.Lengths.{seal_length};
ghost use Rattle.commit.specs.Finish.{changed_words, seal_entries, finish_entries, finish_reply, finish_said};
ghost use Rattle.commit.specs.Told.{finish_told};

use crate::copies::copies_of;
use desk::{Desk, LIMIT, Phase, Session, StoringReply, leave};
use layout::Refusal;

// Refusal 6 or 10.
#[tactic(auto, unfolding(layout::specs::Checks::first, layout::specs::Checks::answered, layout::specs::Refusal::cause))]
fn check_seal(phase: Phase, count: u64, clock: u64) -> Result<(), Refusal>
    ensures { result ≡ answer_of (first (unless (is_active phase) 6) (unless (eqb count 0 || ltb clock limit) 10)) tt }
{
    if !phase.is_active() {
        return Err(Refusal::WrongPhase);
    }
    if count == 0 || clock < LIMIT {
        Ok(())
    } else {
        Err(Refusal::ClockAtLimit)
    }
}

// Writes the log of the session's copies to its slot, and seals it; the number of entries.
fn seal(image: &mut [u64], desk: &Desk, trace: &mut [u64], session: u64) -> u64
    requires { image_fault image.old desk.now (room_for (length trace.old)) session ≡ 0 }
    ensures count { result
        ≡ seal_length (length (changed_words image.old desk.now session)) (session_at desk.now session).count }
    ensures image { image.new ≡ made (seal_entries image.old desk.now session) image.old }
    ensures trace { trace.new ≡ listed (seal_entries image.old desk.now session) trace.old }
{
    let e = desk.sessions[session as usize];
    let copies = copies_of(&e);
    let changes = journal::gather(image, desk.n, copies);
    let base = layout::slot_at(desk.n, 2 * session + e.slot);
    let slot = &mut image[base as usize..];
    journal::write_log(slot, base, trace, &changes, copies, desk.clock);
    journal::seal_length(&changes, e.count)
}

fn finish_session(
    image: &mut [u64],
    desk: &mut Desk,
    trace: &mut [u64],
    session: u64,
) -> Result<(Option<u64>, u64), Refusal>
    ensures given { result ≡ given_by (finish_reply image.old desk.old (length trace.old) session) }
    ensures desk { desk.new ≡ (finish_reply image.old desk.old (length trace.old) session).desk }
    ensures image { image.new
        ≡ made (finish_entries image.old desk.old (length trace.old) session) image.old }
    ensures trace { trace.new
        ≡ listed (finish_entries image.old desk.old (length trace.old) session) trace.old }
{
    desk.entered(image, 48 <= trace.len(), session)?;
    let i = session as usize;
    let Session { phase, count, .. } = desk.sessions[i];
    check_seal(phase, count, desk.clock)?;
    if count == 0 {
        desk.sessions[i] = Session::idle();
        desk.order = leave(desk.order, session as u8);
        return Ok((None, 0));
    }
    let entries = seal(image, desk, trace, session);
    desk.sessions[i].phase = Phase::Sealed(desk.clock);
    desk.order = leave(desk.order, session as u8);
    Ok((Some(desk.clock), entries))
}

// Writes the session's copies, or the words of them that differ from home, as a log to its slot, and seals it. Without copies the session
// is idle. It leaves the list of active sessions.
pub fn finish(
    image: &mut [u64],
    mut desk: Desk,
    trace: &mut [u64],
    session: u64,
) -> StoringReply<Option<u64>>
    ensures reply { result ≡ finish_reply image.old desk (length trace.old) session }
    ensures image { image.new
        ≡ made (finish_entries image.old desk (length trace.old) session) image.old }
    ensures trace { trace.new
        ≡ listed (finish_entries image.old desk (length trace.old) session) trace.old }
    ensures told { finish_told result.answer ≡ finish_said image.old desk (length trace.old) session }
{
    let given = finish_session(image, &mut desk, trace, session);
    StoringReply::of(given, desk)
}
