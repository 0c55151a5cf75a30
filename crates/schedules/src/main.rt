// Walks through stored streams, one after the other, as `reelwalk` walks through one. Standard input has each stream behind its length in
// bytes, as four bytes, lowest first.
#![tactic(auto)]

ghost use Rattle.std.specs.Prelude.{◌≤◌, length, IfSome};

use std::io::Stdin;
use store::Desk;

// Reads the next stream to the start of the buffer; the answer is how many bytes it has. One that is longer than the buffer, or cut short,
// is the end.
fn next_stream(stdin: Stdin, input: &mut [u8]) -> Option<usize>
    ensures { IfSome result (λ size. size ≤ length input.old) }
{
    let mut head = [0; 4];
    if feed::read_full(stdin, &mut head) < 4 {
        return None;
    }
    let size = u32::from_le_bytes(head) as usize;
    if input.len() < size || feed::read_full(stdin, &mut input[..size]) < size {
        return None;
    }
    Some(size)
}

fn walk_all(
    rt: &HostRuntime,
    input: &mut [u8],
    image: &mut [u64],
    before: &mut [u64],
    trace: &mut [u64],
    output: &mut [u8],
    first: Desk,
)
    requires { (256 ≤ length output.old) × (length image.old ≤ length before.old) × (48 ≤ length trace.old)
        × (35 ≤ length input.old) × (1732 ≤ length image.old) }
{
    for _turn in 0..u64::MAX {
        let Some(size) = next_stream(rt.stdin(), input) else {
            return;
        };
        walk::run(rt, input, image, before, trace, output, first, size, true);
    }
}

fn main(rt: HostRuntime) {
    let mut input: [u8; 131072] = [0; 131072];
    let mut output = io::large_buffer();
    let mut image: [u64; 1732] = [0; 1732];
    let mut before: [u64; 1732] = [0; 1732];
    let mut trace: [u64; 48] = [0; 48];
    // zeros are no image: the desk of a refused opening
    let none = store::open(&mut image, &mut trace);
    walk_all(
        &rt,
        &mut input,
        &mut image,
        &mut before,
        &mut trace,
        &mut output,
        none.desk,
    );
}
