// One turn of a walk. The functions here are for use inside this crate: they ask for places within the buffers and room for a line.
ghost use Rattle.std.specs.Prelude.{◌≡◌, ◌+◌, ◌-◌, ◌<◌, ◌≤◌, ◌^◌, length};
ghost use Rattle.walk.specs.Bounds.{Within, Starved};
ghost use Rattle.walk.specs.Walk.{OtherTurn, scene_of, OneTurn};

use crate::turn::{Taken, Turn, next_turn};
use store::Desk;
use turns::{State, bad, fail, filled, flush, lay_out, make, opened, resume, stopped, tell};

// The desk and the state after a turn.
#[derive(Clone, Copy)]
pub struct Turned {
    pub desk: Desk,
    pub state: State,
}

// A turn that leaves the desk as it is.
fn other_turn(
    rt: &HostRuntime,
    input: &mut [u8],
    image: &mut [u64],
    trace: &mut [u64],
    output: &mut [u8],
    s: State,
    turn: Turn,
) -> State
    requires { Within s (length input.old) (length output.old) (length image.old) × (s.put + 256 ≤ length output.old)
        × Starved turn (s.have - s.at) }
    ensures within { Within result (length input.old) (length output.old) (length image.old)
        × (result.number ≡ s.number) }
    ensures other_turn { OtherTurn (length trace.old) turn input.old
        (record { memory = image.old; output = output.old; state = s }) input.new
        (record { memory = image.new; output = output.new; state = result }) }
{
    match turn {
        Turn::Fill => {
            let came = feed::refill(rt.stdin(), input, s.at, s.have);
            filled(s, came)
        }
        Turn::Recover => resume(&mut image[..s.size], trace, output, s),
        Turn::Lay(n, m) => lay_out(image, output, s, n, m),
        Turn::Bad => bad(output, s),
        Turn::End => stopped(s),
        Turn::Flush => flush(rt.stdout(), output, s),
        Turn::Fail => fail(rt.stderr(), output, s),
        Turn::Open | Turn::Call(_) => s,
    }
}

// One turn: the lines are written out where there is little room for one more; else what comes next.
pub fn take_turn(
    rt: &HostRuntime,
    input: &mut [u8],
    image: &mut [u64],
    before: &mut [u64],
    trace: &mut [u64],
    output: &mut [u8],
    desk: Desk,
    s: State,
) -> Turned
    requires within { Within s (length input.old) (length output.old) (length image.old) }
    requires image_in_bounds { (length image.old ≤ length before.old) × (s.number + 1 < 2 ^ 64) }
    ensures within_2 { Within result.state (length input.old) (length output.old) (length image.old)
        × (result.state.number ≤ s.number + 1) }
    ensures one_turn { OneTurn (length trace.old) (scene_of input.old image.old output.old desk s)
        (scene_of input.new image.new output.new result.desk result.state) }
{
    if output.len() - s.put < 256 {
        return Turned {
            desk,
            state: flush(rt.stdout(), output, s),
        };
    }
    let Taken { turn, state } = next_turn(input, s);
    match turn {
        Turn::Open => Turned {
            desk: store::open(&mut image[..state.size], trace).desk,
            state: opened(state),
        },
        Turn::Call(step) => {
            let a = make(&mut image[..state.size], before, trace, desk, step, state);
            Turned {
                desk: a.desk,
                state: tell(output, state, step, a.outcome, a.entries),
            }
        }
        _ => Turned {
            desk,
            state: other_turn(rt, input, image, trace, output, state, turn),
        },
    }
}
