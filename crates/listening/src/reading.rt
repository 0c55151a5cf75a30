// Read: the store's own, for a session that holds no copies.
ghost use Rattle.std.specs.Prelude.{◌≡◌};
ghost use Rattle.snapshot.specs.Told.{read_told};
ghost use Rattle.listening.specs.Read.{listen_read_reply, listen_read_said};

use crate::listener::holds_copies;
use desk::{Desk, Reply};
use layout::Refusal;
use snapshot::Sight;

// Reads a record in the session's snapshot. With copies, the store's refusal comes before 18.
pub fn read(image: &[u64], desk: Desk, session: u64, rec: u64) -> Reply<Sight>
    ensures reply { result ≡ listen_read_reply image.now desk session rec }
    ensures told { read_told result.answer ≡ listen_read_said image.now desk session rec }
{
    let reply = store::read(image, desk, session, rec);
    if !holds_copies(&desk, session) {
        return reply;
    }
    Reply {
        answer: reply.answer.and(Err(Refusal::CopiesHeld)),
        desk,
    }
}
