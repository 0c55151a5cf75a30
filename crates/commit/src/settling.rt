// Settle: the session to wait for, none where the copies went home; and the number of entries.
ghost use Rattle.std.specs.Prelude.{true, cond, ◌≡◌, ◌&&◌, ltb, length, Some, None};
ghost use Rattle.layout.specs.Entries.{made, listed};
ghost use Rattle.desk.specs.Desk.{active_count, is_active, start_of};
ghost use Rattle.desk.specs.Coherent.{coherent_b};
ghost use Rattle.desk.specs.Replies.{given_by};
ghost use Rattle.commit.specs.Settle.{reader_below, settle_entries, settle_reply, settle_said};
ghost use Rattle.commit.specs.Told.{settle_told};

use crate::copies::copies_of;
use desk::{Desk, Phase, Session, StoringReply, unmark};
use layout::Refusal;

// The start of an active session, if it is below this end.
fn start_below(end: u64, p: Phase) -> Option<u64>
    ensures { result ≡ cond (is_active p && ltb (start_of p) end) (Some (start_of p)) None }
{
    match p {
        Phase::Active(start) if start < end => Some(start),
        _ => None,
    }
}

// The active session with the smallest start below this end, among equal starts the lowest, if there is one: the lowest in the front run of
// equal starts of the list. With nobody active place 0 reads as session 0, which has no start.
fn reader_below(desk: &Desk, active: usize, end: u64) -> Option<u64>
    requires { (coherent_b desk.now ≡ true) × (active ≡ active_count desk.now) }
    ensures { result ≡ reader_below desk.now end }
{
    let front = desk.order[0];
    let start = start_below(end, desk.sessions[front as usize].phase)?;
    let mut lowest = front;
    for j in 1..active {
        let next = desk.order[j];
        if start_below(end, desk.sessions[next as usize].phase) != Some(start) {
            break;
        }
        lowest = lowest.min(next);
    }
    Some(u64::from(lowest))
}

fn settle_session(
    image: &mut [u64],
    desk: &mut Desk,
    trace: &mut [u64],
    session: u64,
) -> Result<(Option<u64>, u64), Refusal>
    ensures given { result ≡ given_by (settle_reply image.old desk.old (length trace.old) session) }
    ensures desk { desk.new ≡ (settle_reply image.old desk.old (length trace.old) session).desk }
    ensures image { image.new
        ≡ made (settle_entries image.old desk.old (length trace.old) session) image.old }
    ensures trace { trace.new
        ≡ listed (settle_entries image.old desk.old (length trace.old) session) trace.old }
{
    let active = desk.entered(image, 48 <= trace.len(), session)?;
    let i = session as usize;
    let entry = desk.sessions[i];
    let Phase::Published(end) = entry.phase else {
        return Err(Refusal::WrongPhase);
    };
    if let Some(reader) = reader_below(desk, active, end) {
        return Ok((Some(reader), 0));
    }
    let at = journal::put_homes(image, trace, copies_of(&entry));
    layout::put_fence(trace, at);
    unmark(&mut desk.holders, entry.copies, entry.count);
    desk.sessions[i] = Session::idle();
    Ok((None, journal::settle_length(entry.count)))
}

// Sends a published session's copies home, unless active sessions have a start below its end: then it names the oldest of them.
pub fn settle(
    image: &mut [u64],
    mut desk: Desk,
    trace: &mut [u64],
    session: u64,
) -> StoringReply<Option<u64>>
    ensures reply { result ≡ settle_reply image.old desk (length trace.old) session }
    ensures image { image.new
        ≡ made (settle_entries image.old desk (length trace.old) session) image.old }
    ensures trace { trace.new
        ≡ listed (settle_entries image.old desk (length trace.old) session) trace.old }
    ensures told { settle_told result.answer ≡ settle_said image.old desk (length trace.old) session }
{
    let given = settle_session(image, &mut desk, trace, session);
    StoringReply::of(given, desk)
}
