// Standard input through a buffer of fixed size. `refill` is public for the programs above: it asks for places within the buffer. What the
// operating system answers is its to hand on: how many bytes a read brought, 0 at the end of the input and where a read fails.
#![tactic(auto)]

ghost use Rattle.std.specs.Prelude.{◌≤◌, length};
ghost use Rattle.feed.specs.Feed.{Refilled};

use std::io::{Read, Stdin};

// Moves the bytes held, from `at` to `have`, to the start and reads once behind them; the answer is how many bytes came.
pub fn refill(mut stdin: Stdin, buf: &mut [u8], at: usize, have: usize) -> usize
    requires { (at ≤ have) × (have ≤ length buf.old) }
    ensures { Refilled buf.old at have buf.new result }
{
    let left = have - at;
    buf.copy_within(at..have, 0);
    stdin.read(&mut buf[left..]).unwrap_or(0)
}

// Reads until the buffer is full, the input ends or a read fails; the answer is how many bytes came, which stand first.
pub fn read_full(mut stdin: Stdin, buf: &mut [u8]) -> usize
    ensures { result ≤ length buf.new }
{
    let mut have = 0;
    while have < buf.len() {
        let came = stdin.read(&mut buf[have..]).unwrap_or(0);
        if came == 0 {
            break;
        }
        have += came;
    }
    have
}
