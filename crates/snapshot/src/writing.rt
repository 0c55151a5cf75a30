// Write: a copy of a record; where another session holds the record (refusal 7), which one.
ghost use Rattle.std.specs.Prelude.{◌≡◌, ◌≤◌, ◌<◌};
ghost use Rattle.layout.specs.Refusal.{answer_of};
ghost use Rattle.layout.specs.Search.{within};
ghost use Rattle.snapshot.specs.Write.{empty_slot, copy_fault, reserved, overwritten, extended, write_reply, write_said};
ghost use Rattle.snapshot.specs.Told.{write_told};
ghost use Rattle.snapshot.specs.Own.{own_place};

use crate::copies::own_place;
use desk::{Desk, RecordCopy, Reply, Session, leave, unmark};
use layout::Refusal;

// The lowest empty slot of the session, if it has one.
fn empty_slot(image: &[u64], n: u64, session: u64) -> Option<u64>
    requires { (n ≤ 256) × (session < 16) }
    ensures { result ≡ within 2 (empty_slot image.now n session) }
{
    (0..2).find(|q| layout::slot_word(image, n, 2 * session + *q, 0) == 0)
}

// The slot for one copy more, at the first the lowest empty one, then the same; or refusal 8 or 9.
fn slot_for(image: &[u64], n: u64, session: u64, e: Session) -> Result<u64, Refusal>
    requires { (n ≤ 256) × (session < 16) }
    ensures { result
        ≡ answer_of (copy_fault 0 e.count (empty_slot image.now n session))
        (reserved e.count (empty_slot image.now n session) e.slot) }
{
    match e.count {
        0 => empty_slot(image, n, session).ok_or(Refusal::SlotsFull),
        1..=3 => Ok(e.slot),
        _ => Err(Refusal::FifthRecord),
    }
}

// The session with its own copy overwritten, in its place.
fn overwrite(mut e: Session, place: usize, rec: u64, words: [u64; 4]) -> Session
    requires { (place ≡ own_place e rec) × (place < 4) }
    ensures { result ≡ overwritten e rec words }
{
    e.copies[place] = RecordCopy { rec, words };
    e
}

// The session with one copy more.
fn extend(mut e: Session, rec: u64, words: [u64; 4], slot: u64) -> Session
    requires { e.count < 4 }
    ensures { result ≡ extended e rec words slot }
{
    e.copies[e.count as usize] = RecordCopy { rec, words };
    Session {
        count: e.count + 1,
        slot,
        ..e
    }
}

fn put_copy(
    image: &[u64],
    desk: &mut Desk,
    session: u64,
    rec: u64,
    words: [u64; 4],
) -> Result<(), Refusal>
    ensures answer { result ≡ (write_reply image.now desk.old session rec words).answer }
    ensures desk { desk.new ≡ (write_reply image.now desk.old session rec words).desk }
{
    desk.entered_record(image, session, rec)?;
    let i = session as usize;
    let e = desk.sessions[i];
    if !e.phase.is_active() {
        return Err(Refusal::WrongPhase);
    }
    if let Some(own) = own_place(e, rec) {
        desk.sessions[i] = overwrite(e, own, rec, words);
        return Ok(());
    }
    let k = rec as usize;
    let mark = desk.holders[k];
    if mark != 0 {
        unmark(&mut desk.holders, e.copies, e.count);
        desk.order = leave(desk.order, session as u8);
        desk.sessions[i] = Session::idle();
        return Err(Refusal::OtherHolds(u64::from(mark) - 1));
    }
    let slot = slot_for(image, desk.n, session, e)?;
    desk.holders[k] = session as u8 + 1;
    desk.sessions[i] = extend(e, rec, words, slot);
    Ok(())
}

// Writes four words to the session's copy of a record.
pub fn write(image: &[u64], mut desk: Desk, session: u64, rec: u64, words: [u64; 4]) -> Reply<()>
    ensures reply { result ≡ write_reply image.now desk session rec words }
    ensures told { write_told result.answer ≡ write_said image.now desk session rec }
{
    let answer = put_copy(image, &mut desk, session, rec, words);
    Reply { answer, desk }
}
