// The call that a case names.
use crate::answered::{Answered, Told};
use crate::{listening_calls, reel_calls, store_calls};
use codec::Step;
use store::Desk;

// A call and its arguments but the image, the desk and the trace.
#[derive(Clone, Copy)]
pub enum Call {
    Lay {
        n: u64,
        m: u64,
    },
    Open,
    Recover,
    // A call of a session that a step makes too.
    Step(Step),
    PublishGroup(u16),
    PackReel([u64; 4]),
    UnpackReel([u64; 4]),
    ReadReel {
        session: u64,
        rec: u64,
    },
    WriteReel {
        session: u64,
        rec: u64,
        numbers: [u64; 4],
    },
    TapeLength([u64; 4]),
    BeginListening(u64),
    ReadListening {
        session: u64,
        rec: u64,
    },
    FinishListening(u64),
    Find {
        session: u64,
        shelf: u64,
    },
    // The number is no call's. No case that is unpacked has one.
    NoCall,
}

impl Call {
    // The call of a case by its number, word 0. N and M are words 1 and 2, session and record 3 and 4, and 5 to 8 the words of a record or the
    // numbers of a reel. A group's set stands in the place of the session, a shelf number in that of word 5. `model/raw.py` has the numbers.
    pub fn of(case: [u64; 2470]) -> Call {
        let session = case[3];
        let rec = case[4];
        let words = [case[5], case[6], case[7], case[8]];
        match case[0] {
            0 => Call::Lay {
                n: case[1],
                m: case[2],
            },
            1 => Call::Step(Step::Begin(session)),
            2 => Call::Step(Step::Read(session, rec)),
            3 => Call::Step(Step::Write(session, rec, words)),
            4 => Call::Step(Step::Finish(session)),
            5 => Call::Step(Step::Publish(session)),
            6 => Call::Step(Step::Settle(session)),
            7 => Call::Step(Step::Reclaim(session)),
            8 => Call::Step(Step::Abandon(session)),
            9 => Call::Open,
            10 => Call::Recover,
            11 => Call::PackReel(words),
            12 => Call::UnpackReel(words),
            13 => Call::ReadReel { session, rec },
            14 => Call::WriteReel {
                session,
                rec,
                numbers: words,
            },
            15 => Call::TapeLength(words),
            16 => Call::BeginListening(session),
            17 => Call::ReadListening { session, rec },
            18 => Call::FinishListening(session),
            19 => Call::Find {
                session,
                shelf: words[0],
            },
            20 => Call::PublishGroup((session % 65536) as u16),
            _ => Call::NoCall,
        }
    }

    // Makes the call on an image, a desk and a trace.
    pub fn make(self, image: &mut [u64], desk: Desk, trace: &mut [u64]) -> Answered {
        match self {
            Call::Lay { n, m } => store_calls::lay(image, desk, n, m),
            Call::Open => store_calls::open(image, trace),
            Call::Recover => store_calls::recover(image, desk, trace),
            Call::Step(step) => store_calls::apply(image, desk, trace, step),
            Call::PublishGroup(set) => store_calls::publish_group(image, desk, trace, set),
            Call::PackReel(numbers) => reel_calls::pack(desk, numbers),
            Call::UnpackReel(words) => reel_calls::unpack(desk, words),
            Call::ReadReel { session, rec } => reel_calls::read(image, desk, session, rec),
            Call::WriteReel {
                session,
                rec,
                numbers,
            } => reel_calls::write(image, desk, session, rec, numbers),
            Call::TapeLength(words) => reel_calls::tape_length(desk, words),
            Call::BeginListening(session) => listening_calls::begin(desk, session),
            Call::ReadListening { session, rec } => listening_calls::read(
                image, desk, session, rec,
            ),
            Call::FinishListening(session) => listening_calls::finish(image, desk, trace, session),
            Call::Find { session, shelf } => listening_calls::find(image, desk, session, shelf),
            Call::NoCall => Answered {
                told: Told::of(0, 0),
                entries: 0,
                desk,
            },
        }
    }

    // Whether the call has words alone: no image, desk or trace.
    fn words_alone(self) -> bool {
        matches!(
            self,
            Call::PackReel(_) | Call::UnpackReel(_) | Call::TapeLength(_)
        )
    }

    // Whether the line of the case shows the image.
    pub fn shows_image(self) -> bool {
        !self.words_alone()
            && !matches!(
                self,
                Call::Step(Step::Begin(_) | Step::Abandon(_)) | Call::BeginListening(_)
            )
    }

    // Whether it shows the trace.
    pub fn shows_trace(self) -> bool {
        match self {
            Call::Step(step) => matches!(
                step,
                Step::Finish(_) | Step::Publish(_) | Step::Settle(_) | Step::Reclaim(_)
            ),
            Call::Open | Call::Recover | Call::PublishGroup(_) | Call::FinishListening(_) => true,
            _ => false,
        }
    }

    // Whether it shows the desk.
    pub fn shows_desk(self) -> bool {
        !self.words_alone() && !matches!(self, Call::Lay { .. } | Call::Recover)
    }
}
