// A walk through a step stream. `run` is public for the programs above: it asks for an input buffer for the longest step, in which the bytes
// said to be held fit, for memory of the largest image and a `before` at least as long, for a trace with room for any list, and for an output
// with room for a line.
#![tactic(auto)]

ghost use Rattle.std.specs.Prelude.{◌≤◌, length};
ghost use Rattle.turns.specs.State.{first_state};
ghost use Rattle.walk.specs.Walk.{scene_of, Leaves};

mod turn;
mod turning;

use store::Desk;
use turning::take_turn;
use turns::{Next, start};

// The most turns of a walk.
const TURNS: u64 = u64::MAX - 1;

// Walks through a stream: its first `have` bytes are in the input buffer, and unless it has ended, more come from standard input. The lines
// go to standard output. The first desk may be any: the first step lays and opens, or is bad.
pub fn run(
    rt: &HostRuntime,
    input: &mut [u8],
    image: &mut [u64],
    before: &mut [u64],
    trace: &mut [u64],
    output: &mut [u8],
    first: Desk,
    have: usize,
    ended: bool,
)
    requires { (256 ≤ length output.old) × (have ≤ length input.old) × (length image.old ≤ length before.old)
        × (48 ≤ length trace.old) × (35 ≤ length input.old) × (1732 ≤ length image.old) }
    ensures { Leaves (length trace.old)
        (scene_of input.old image.old output.old first
        (first_state have ended)) input.new image.new output.new }
{
    let mut s = start(have, ended);
    let mut desk = first;
    for _ in 0..TURNS {
        if s.next == Next::Stopped {
            break;
        }
        let t = take_turn(rt, input, image, before, trace, output, desk, s);
        desk = t.desk;
        s = t.state;
    }
}
