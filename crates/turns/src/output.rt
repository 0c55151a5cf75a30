// The lines that are held, written out; and what is said where that fails.
ghost use Rattle.std.specs.Prelude.{◌≡◌, ◌+◌, ◌≤◌, length};
ghost use Rattle.lines.specs.Put.{put};
ghost use Rattle.turns.specs.Bounds.{Follows};
ghost use Rattle.turns.specs.Output.{Flushed, lost_text};
ghost use Rattle.turns.specs.State.{stopped_of};

use crate::state::{State, stopped, written};
use std::io::{Stderr, Stdout};

// Writes the lines held to standard output.
pub fn flush(stdout: Stdout, output: &[u8], s: State) -> State
    requires { s.put ≤ length output.now }
    ensures follows { Follows s result 0 s.size }
    ensures flushed { Flushed s result }
{
    let done = stdout.write_all(&output[..s.put]).is_ok();
    written(s, done)
}

// Says on standard error that lines were lost; the walk stops. The text takes the place of the lines.
pub fn fail(stderr: Stderr, output: &mut [u8], s: State) -> State
    requires { s.put + 256 ≤ length output.old }
    ensures follows { Follows s result s.put s.size }
    ensures output_after { (output.new ≡ put 0 lost_text output.old) × (result ≡ stopped_of s) }
{
    let end = lines::put_text(output, 0, b"reelwalk: not all lines could be written\n");
    let _ = stderr.write_all(&output[..end]);
    stopped(s)
}
