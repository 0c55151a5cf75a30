// Calls of the listening room, answered by plain numbers.
use crate::answered::{Answered, Told};
use crate::results;
use store::Desk;

pub fn begin(desk: Desk, session: u64) -> Answered {
    Answered::of(
        listening::begin(desk, session),
        |start| Told::of(results::START, start),
    )
}

pub fn read(image: &[u64], desk: Desk, session: u64, rec: u64) -> Answered {
    Answered::of(listening::read(image, desk, session, rec), Told::seen)
}

pub fn finish(image: &mut [u64], desk: Desk, trace: &mut [u64], session: u64) -> Answered {
    Answered::storing(listening::finish(image, desk, trace, session), Told::sealed)
}

pub fn find(image: &[u64], desk: Desk, session: u64, shelf: u64) -> Answered {
    Answered::of(listening::find(image, desk, session, shelf), |rec| {
        rec.map_or(Told::of(results::NONE, 0), |r| Told::of(results::FOUND, r))
    })
}
