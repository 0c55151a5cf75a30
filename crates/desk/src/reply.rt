// What a call on a desk gives.
ghost use Rattle.std.specs.Prelude.{◌≡◌};
ghost use Rattle.desk.specs.Replies.{storing_reply};

use crate::state::Desk;
use layout::Refusal;

// The answer, and the desk after the call.
#[derive(Clone, Copy)]
pub struct Reply<T> {
    pub answer: Result<T, Refusal>,
    pub desk: Desk,
}

// The same of a call that stores, with the number of entries in the trace.
#[derive(Clone, Copy)]
pub struct StoringReply<T> {
    pub answer: Result<T, Refusal>,
    pub entries: u64,
    pub desk: Desk,
}

impl<T: Copy> StoringReply<T> {
    // Of a call that gave an answer with so many entries, or was refused.
    pub fn of(given: Result<(T, u64), Refusal>, desk: Desk) -> StoringReply<T>
        ensures { result ≡ storing_reply given desk }
    {
        match given {
            Ok((answer, entries)) => StoringReply {
                answer: Ok(answer),
                entries,
                desk,
            },
            Err(refusal) => StoringReply {
                answer: Err(refusal),
                entries: 0,
                desk,
            },
        }
    }
}
