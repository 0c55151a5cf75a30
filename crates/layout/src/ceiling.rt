// Raising the ceiling (document 02, Req 05), which is header word 3. For the crates above: there is room in image and trace, and the sum does
// not wrap, which their checks have shown.
ghost use Rattle.std.specs.Prelude.{◌≡◌, ◌+◌, ◌≤◌, ◌<◌, ◌^◌, length};
ghost use Rattle.layout.specs.Ceiling.{raise_entries, pass_entries};
ghost use Rattle.layout.specs.Entries.{made, listed};

use crate::image::word;
use crate::trace::{put_fence, put_store};

// The ceiling is raised to this much above the clock.
const AHEAD: u64 = 1024;

// Stores the ceiling above a clock, with a fence; the answer is the number of entries.
pub fn raise(image: &mut [u64], trace: &mut [u64], clock: u64) -> u64
    requires { (4 ≤ length image.old) × (4 ≤ length trace.old) × (clock + 1024 < 2 ^ 64) }
    ensures count { result ≡ length (raise_entries clock) }
    ensures image { image.new ≡ made (raise_entries clock) image.old }
    ensures trace { trace.new ≡ listed (raise_entries clock) trace.old }
{
    let at = put_store(image, 0, trace, 0, 3, clock + AHEAD);
    put_fence(trace, at);
    2
}

// The same where the clock passes the ceiling, else nothing.
pub fn raise_past(image: &mut [u64], trace: &mut [u64], clock: u64) -> u64
    requires { (4 ≤ length image.old) × (4 ≤ length trace.old) × (clock + 1024 < 2 ^ 64) }
    ensures count { result ≡ length (pass_entries image.old clock) }
    ensures image { image.new ≡ made (pass_entries image.old clock) image.old }
    ensures trace { trace.new ≡ listed (pass_entries image.old clock) trace.old }
{
    if clock <= word(image, 3) {
        return 0;
    }
    raise(image, trace, clock)
}
