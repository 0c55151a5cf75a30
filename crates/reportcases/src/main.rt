// Reads stored cases of the report from standard input. For each it lends the report a table and writes a line of what came back; behind it
// stands what the program prints of the case's bytes. `model/rawreport.py` has the formats.
#![tactic(auto)]

mod case;
mod filling;

use case::{case_size, show};

// The input held is input[at..have]. A turn takes the case that starts it, or reads where it holds no whole one.
fn main(rt: HostRuntime) {
    let mut input = io::large_buffer();
    let mut at = 0;
    let mut have = 0;
    let mut number = 0;
    for turn in 0..u64::MAX {
        if let Some(size) = case_size(&input, at, have) {
            let end = at + size;
            if !show(rt.stdout(), number, &input[at..end]) {
                return;
            }
            at = end;
            number += 1;
        } else {
            let came = feed::refill(rt.stdin(), &mut input, at, have);
            if came == 0 {
                return;
            }
            have = have - at + came;
            at = 0;
        }
    }
}
