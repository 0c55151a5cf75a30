// What a call answered, in plain numbers: the refusal's number, or one of the results.
use crate::results;
use store::{Desk, Refusal, Reply, Sight, Source, StoringReply};

// The number, and the value and the words that go with it; zeros where there are none.
#[derive(Clone, Copy)]
pub struct Told {
    pub number: u64,
    pub value: u64,
    pub words: [u64; 4],
}

impl Told {
    pub fn of(number: u64, value: u64) -> Told {
        Told {
            number,
            value,
            words: [0; 4],
        }
    }

    pub fn worded(number: u64, words: [u64; 4]) -> Told {
        Told {
            number,
            value: 0,
            words,
        }
    }

    pub fn seen(sight: Sight) -> Told {
        Told::worded(source_number(sight.source), sight.words)
    }

    // By the persist number, none where there was nothing to store.
    pub fn sealed(persist: Option<u64>) -> Told {
        persist.map_or(
            Told::of(results::EMPTY, 0),
            |p| Told::of(results::SEALED, p),
        )
    }
}

impl From<Refusal> for Told {
    fn from(refusal: Refusal) -> Told {
        Told::of(refusal.number(), refusal.value())
    }
}

pub fn source_number(source: Source) -> u64 {
    match source {
        Source::Own => results::OWN,
        Source::Copy => results::COPY,
        Source::Home => results::HOME,
    }
}

// What a call told and left: no entries where it stores nothing, the desk that was given where it leaves none.
#[derive(Clone, Copy)]
pub struct Answered {
    pub told: Told,
    pub entries: u64,
    pub desk: Desk,
}

impl Answered {
    // Of a call beside the desk.
    pub fn beside<T, F: FnOnce(T) -> Told>(
        desk: Desk,
        answer: Result<T, Refusal>,
        shown: F,
    ) -> Answered
        requires { F.IsAlwaysCallable shown }
    {
        Answered {
            told: answer.map_or_else(Told::from, shown),
            entries: 0,
            desk,
        }
    }

    pub fn of<T, F: FnOnce(T) -> Told>(reply: Reply<T>, shown: F) -> Answered
        requires { F.IsAlwaysCallable shown }
    {
        Answered::beside(reply.desk, reply.answer, shown)
    }

    // Of a call that stores.
    pub fn storing<T, F: FnOnce(T) -> Told>(reply: StoringReply<T>, shown: F) -> Answered
        requires { F.IsAlwaysCallable shown }
    {
        Answered {
            entries: reply.entries,
            ..Answered::beside(reply.desk, reply.answer, shown)
        }
    }
}
