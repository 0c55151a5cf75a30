// Finish: the store's own, for a session that holds no copies, so that it stores nothing.
ghost use Rattle.std.specs.Prelude.{◌≡◌, length};
ghost use Rattle.commit.specs.Told.{finish_told};
ghost use Rattle.listening.specs.Finish.{listen_finish_reply, listen_finish_said};

use crate::listener::{holds_copies, listener_start};
use desk::{Desk, StoringReply};
use layout::Refusal;

// Finishes a session of the listening room. With copies, any other refusal comes before 18.
pub fn finish(
    image: &mut [u64],
    desk: Desk,
    trace: &mut [u64],
    session: u64,
) -> StoringReply<Option<u64>>
    ensures reply { result ≡ listen_finish_reply image.old desk (length trace.old) session }
    ensures image { image.new ≡ image.old }
    ensures trace { trace.new ≡ trace.old }
    ensures told { finish_told result.answer ≡ listen_finish_said image.old desk (length trace.old) session }
{
    if !holds_copies(&desk, session) {
        return store::finish(image, desk, trace, session);
    }
    let start = listener_start(image, &desk, 48 <= trace.len(), session);
    StoringReply {
        answer: start.and(Err(Refusal::CopiesHeld)),
        entries: 0,
        desk,
    }
}
