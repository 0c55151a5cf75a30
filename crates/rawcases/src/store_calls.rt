// Calls of the store, answered by plain numbers.
use crate::answered::{Answered, Told};
use crate::results;
use codec::Step;
use lines::Outcome;
use store::Desk;

pub fn lay(image: &mut [u64], desk: Desk, n: u64, m: u64) -> Answered {
    Answered::beside(desk, store::lay(image, n, m), |()| Told::of(results::OK, 0))
}

pub fn open(image: &mut [u64], trace: &mut [u64]) -> Answered {
    Answered::storing(store::open(image, trace), |()| Told::of(results::OK, 0))
}

pub fn recover(image: &mut [u64], desk: Desk, trace: &mut [u64]) -> Answered {
    let r = store::recover(image, trace);
    Answered {
        entries: r.entries,
        ..Answered::beside(desk, r.answer, |persist| {
            persist.map_or(
                Told::of(results::CLEAN, 0),
                |p| Told::of(results::REPLAYED, p),
            )
        })
    }
}

pub fn publish_group(image: &mut [u64], desk: Desk, trace: &mut [u64], set: u16) -> Answered {
    Answered::storing(desk.publish_group(image, trace, set), |end| {
        Told::of(results::END, end)
    })
}

fn shown(outcome: Outcome) -> Told {
    match outcome {
        Outcome::Refused(refusal) => Told::from(refusal),
        Outcome::Ok => Told::of(results::OK, 0),
        Outcome::Start(start) => Told::of(results::START, start),
        Outcome::End(end) => Told::of(results::END, end),
        Outcome::Sealed(persist) => Told::of(results::SEALED, persist),
        Outcome::Empty => Told::of(results::EMPTY, 0),
        Outcome::Own(words) => Told::worded(results::OWN, words),
        Outcome::Copy(words) => Told::worded(results::COPY, words),
        Outcome::Home(words) => Told::worded(results::HOME, words),
        Outcome::Wait(session) => Told::of(results::WAIT, session),
        Outcome::None => Told::of(results::NONE, 0),
        Outcome::Held(persist) => Told::of(results::HELD, persist),
        Outcome::Cleared(persist) => Told::of(results::CLEARED, persist),
        Outcome::Cut | Outcome::Noted => Told::of(0, 0),
    }
}

// The session call of a step. No step here lays or cuts.
pub fn apply(image: &mut [u64], desk: Desk, trace: &mut [u64], step: Step) -> Answered {
    let r = steps::apply(image, desk, trace, step);
    Answered {
        told: shown(r.outcome),
        entries: r.entries,
        desk: r.desk,
    }
}
