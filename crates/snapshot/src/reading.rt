// Read: whether the words are the caller's own copy, a published copy or the home record, and the words.
ghost use Rattle.std.specs.Prelude.{◌≡◌};
ghost use Rattle.snapshot.specs.Read.{read_reply, read_said};
ghost use Rattle.snapshot.specs.Told.{read_told};

use crate::copies::own_place;
use crate::seeing::{Sight, Source, marked_session, seen};
use desk::{Desk, Phase, Reply};
use layout::Refusal;

fn sight(image: &[u64], desk: &Desk, session: u64, rec: u64) -> Result<Sight, Refusal>
    ensures { result ≡ (read_reply image.now desk.now session rec).answer }
{
    desk.entered_record(image, session, rec)?;
    let e = desk.sessions[session as usize];
    let Phase::Active(start) = e.phase else {
        return Err(Refusal::WrongPhase);
    };
    if let Some(own) = own_place(e, rec) {
        return Ok(Sight {
            source: Source::Own,
            words: e.copies[own].words,
        });
    }
    let mark = desk.holders[rec as usize];
    let holder = desk.sessions[marked_session(mark)];
    Ok(seen(image, start, rec, mark, holder))
}

// Reads a record in the session's snapshot.
pub fn read(image: &[u64], desk: Desk, session: u64, rec: u64) -> Reply<Sight>
    ensures reply { result ≡ read_reply image.now desk session rec }
    ensures told { read_told result.answer ≡ read_said image.now desk session rec }
{
    let answer = sight(image, &desk, session, rec);
    Reply { answer, desk }
}
