// What the next turn of a walk does. The functions here are for use inside this crate.
ghost use Rattle.std.specs.Prelude.{◌≡◌, ◌+◌, ◌≤◌, ◌<◌, ◌^◌, length};
ghost use Rattle.codec.specs.Steps.{size_of};
ghost use Rattle.walk.specs.Bounds.{Comes};
ghost use Rattle.walk.specs.Turn.{step_turn, found_turn, lacks_b, taken_of, turn_of};

use codec::{Found, Step};
use turns::{Next, State, counted};

// Opens the image, makes a call of recover, reads, makes a step on the opened store, lays the image, puts the line "bad", stops, writes the
// lines out, or says that they could not be written and stops.
#[derive(Clone, Copy)]
pub enum Turn {
    Open,
    Recover,
    Fill,
    Call(Step),
    Lay(u64, u64),
    Bad,
    End,
    Flush,
    Fail,
}

// The turn, and the state behind the step that is taken.
#[derive(Clone, Copy)]
pub struct Taken {
    pub turn: Turn,
    pub state: State,
}

// The first step has to be 0, and no later one may be.
fn step_turn(step: Step, laid: bool) -> Turn
    ensures { result ≡ step_turn step laid }
{
    match (step, laid) {
        (Step::Lay(n, m), false) => Turn::Lay(n, m),
        (Step::Lay(..), true) | (_, false) => Turn::Bad,
        (_, true) => Turn::Call(step),
    }
}

// An unknown kind and a short body are bad; the input may end before any step.
fn found_turn(found: Found, laid: bool) -> Turn
    ensures { result ≡ found_turn found laid }
{
    match found {
        Found::Whole(step, _) => step_turn(step, laid),
        Found::Bad | Found::Short => Turn::Bad,
        Found::End => Turn::End,
    }
}

// Whether no whole step starts the bytes held.
fn lacks(found: Found) -> bool
    ensures { result ≡ lacks_b found }
{
    matches!(found, Found::Short | Found::End)
}

// The bytes that a whole step takes; 0 where there is none.
fn bytes_of(found: Found) -> usize
    ensures { result ≡ size_of found }
{
    if let Found::Whole(_, size) = found {
        size
    } else {
        0
    }
}

// Takes the next step and counts it. Without a whole one it writes out the lines held, and then reads where more may come.
#[tactic(auto, using(crate::proofs::Turns::fill_starved), unfolding(crate::specs::Turn::taken_of))]
fn take_step(input: &[u8], s: State) -> Taken
    requires { (s.at ≤ s.have) × (s.have ≤ length input.now) × (s.number + 1 < 2 ^ 64) }
    ensures comes { Comes s result }
    ensures value { result ≡ taken_of input.now s }
{
    let found = codec::decode(&input[s.at..s.have]);
    let lacking = lacks(found);
    if lacking && s.put != 0 {
        return Taken {
            turn: Turn::Flush,
            state: s,
        };
    }
    if lacking && !s.ended {
        return Taken {
            turn: Turn::Fill,
            state: s,
        };
    }
    Taken {
        turn: found_turn(found, s.size != 0),
        state: counted(s, bytes_of(found)),
    }
}

// The next turn, where there is room for a line. Of a walk that has stopped none is asked for.
#[tactic(auto, unfolding(crate::specs::Turn::turn_of))]
pub fn next_turn(input: &[u8], s: State) -> Taken
    requires { (s.at ≤ s.have) × (s.have ≤ length input.now) × (s.number + 1 < 2 ^ 64) }
    ensures comes { Comes s result }
    ensures value { result ≡ turn_of input.now s }
{
    let turn = match s.next {
        Next::Step => return take_step(input, s),
        Next::Open => Turn::Open,
        Next::Recover => Turn::Recover,
        Next::Over | Next::Stopped if s.put != 0 => Turn::Flush,
        Next::Over | Next::Stopped => Turn::End,
        Next::Failed => Turn::Fail,
    };
    Taken { turn, state: s }
}
