// Calls of the reel library, answered by plain numbers.
use crate::answered::{Answered, Told, source_number};
use crate::results;
use reels::{Contents, reel_of, words_of};
use store::Desk;

fn shown(contents: Contents) -> Told {
    match contents {
        Contents::Unused => Told::of(results::UNUSED, 0),
        Contents::Found(reel) => Told::worded(results::REEL, words_of(reel)),
        Contents::SpeedToFind(reel) => Told::worded(results::SPEED_TO_FIND, words_of(reel)),
    }
}

pub fn pack(desk: Desk, numbers: [u64; 4]) -> Answered {
    Answered::beside(desk, reels::pack(reel_of(numbers)), |words| {
        Told::worded(results::OK, words)
    })
}

pub fn unpack(desk: Desk, words: [u64; 4]) -> Answered {
    Answered::beside(desk, reels::unpack(words), shown)
}

// The value says whose the words were that the reel was read from; 0 where it was not read.
pub fn read(image: &[u64], desk: Desk, session: u64, rec: u64) -> Answered {
    let r = reels::read(image, desk, session, rec);
    let mut answered = Answered::beside(r.desk, r.answer, shown);
    answered.told.value = r.source.map_or(0, source_number);
    answered
}

pub fn write(image: &[u64], desk: Desk, session: u64, rec: u64, numbers: [u64; 4]) -> Answered {
    let reply = reels::write(image, desk, session, rec, reel_of(numbers));
    Answered::of(reply, |()| Told::of(results::OK, 0))
}

pub fn tape_length(desk: Desk, words: [u64; 4]) -> Answered {
    Answered::beside(desk, reels::tape_length(words), |metres| {
        metres.map_or(
            Told::of(results::UNKNOWN, 0),
            |n| Told::of(results::METRES, n),
        )
    })
}
