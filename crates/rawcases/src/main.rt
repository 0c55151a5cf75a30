// Reads packed raw cases from standard input, makes the call of each and writes a line of what it answered and left. `model/raw.py` has the
// formats.
#![tactic(auto)]

mod answered;
mod calls;
mod case;
mod desk_words;
mod digest;
mod input;
mod listening_calls;
mod reel_calls;
mod results;
mod store_calls;

use case::run;
use input::unpack;
use std::io::Stdout;

// Writes the line of a case: its number and its fields, parted by one space. The answer is whether all was taken. The buffer is all line
// ends at first, so that one stands behind the last field.
fn write_line(stdout: Stdout, number: u64, fields: [u64; 11]) -> bool {
    let mut out: [u8; 252] = [10; 252];
    let a = lines::put_number(&mut out, 0, number);
    let b = lines::put_numbers(&mut out, a, &fields);
    stdout.write_all(&out[0..b + 1]).is_ok()
}

// The input held is input[at..have]. A turn takes the case that starts it, or reads where it holds no whole one.
fn main(rt: HostRuntime) {
    let mut input = io::large_buffer();
    let mut at = 0;
    let mut have = 0;
    let mut number = 0;
    for turn in 0..u64::MAX {
        if let Some(c) = unpack(&input, at, have) {
            if !write_line(rt.stdout(), number, run(c.words)) {
                return;
            }
            at += c.size;
            number += 1;
        } else {
            let came = feed::refill(rt.stdin(), &mut input, at, have);
            if came == 0 {
                return;
            }
            have = have - at + came;
            at = 0;
        }
    }
}
