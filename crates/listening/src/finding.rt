// Find: the first record of the session's snapshot whose word 0 is the shelf number. The checks are made once; then each record is looked at
// by what the store shows of it.
ghost use Rattle.std.specs.Prelude.{true, ◌≡◌};
ghost use Rattle.layout.specs.Below.{lowest};
ghost use Rattle.layout.specs.Search.{within};
ghost use Rattle.desk.specs.Coherent.{coherent_b};
ghost use Rattle.listening.specs.Find.{seen_matches, find_reply, find_said};
ghost use Rattle.listening.specs.Told.{find_told};

use crate::listener::listener_start;
use desk::{Desk, Reply};
use layout::Refusal;
use snapshot::{marked_session, seen};

// The first record from 0 up whose word 0, as a reader with this start sees it, is the number.
fn first_match(image: &[u64], desk: &Desk, start: u64, shelf: u64) -> Option<u64>
    requires { coherent_b desk.now ≡ true }
    ensures { result ≡ within desk.now.n (lowest desk.now.n (seen_matches image.now desk.now start shelf)) }
{
    for r in 0..desk.n {
        let mark = desk.holders[r as usize];
        let holder = desk.sessions[marked_session(mark)];
        let sight = seen(image, start, r, mark, holder);
        if sight.words[0] == shelf {
            return Some(r);
        }
    }
    None
}

fn search(image: &[u64], desk: &Desk, session: u64, shelf: u64) -> Result<Option<u64>, Refusal>
    ensures { result ≡ (find_reply image.now desk.now session shelf).answer }
{
    if !reels::shelved(shelf) {
        return Err(Refusal::WrongShelf);
    }
    let start = listener_start(image, desk, true, session)?;
    Ok(first_match(image, desk, start, shelf))
}

// Finds a reel by its shelf number in the session's snapshot: its record, if there is one.
pub fn find(image: &[u64], desk: Desk, session: u64, shelf: u64) -> Reply<Option<u64>>
    ensures reply { result ≡ find_reply image.now desk session shelf }
    ensures told { find_told result.answer ≡ find_said image.now desk session shelf }
{
    let answer = search(image, &desk, session, shelf);
    Reply { answer, desk }
}
