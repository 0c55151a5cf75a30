// The line of a step and what it answered, and a note about a step that is no call.
ghost use Rattle.std.specs.Prelude.{◌+◌, ◌≤◌, length};
ghost use Rattle.lines.specs.Put.{Put};
ghost use Rattle.lines.specs.Line.{step_head};
ghost use Rattle.lines.specs.Result.{outcome_text, step_line, refused_line, note_line};

use crate::outcome::Outcome;
use crate::text::{put_head, put_result};
use codec::Step;

// The start of a step's line: its number, the call and its arguments.
#[tactic(auto, unfolding(crate::specs::Line::step_head))]
fn put_step_head(out: &mut [u8], at: usize, number: u64, step: Step) -> usize
    requires { at + 79 ≤ length out.old }
    ensures put { Put (step_head number step) at out.old out.new result }
    ensures upper_bound { result ≤ at + 79 }
{
    match step {
        Step::Lay(n, m) => put_head(out, at, number, b"lay", &[n, m]),
        Step::Begin(s) => put_head(out, at, number, b"begin", &[s]),
        Step::Read(s, r) => put_head(out, at, number, b"read", &[s, r]),
        Step::Write(s, r, _) => put_head(out, at, number, b"write", &[s, r]),
        Step::Finish(s) => put_head(out, at, number, b"finish", &[s]),
        Step::Publish(s) => put_head(out, at, number, b"publish", &[s]),
        Step::Settle(s) => put_head(out, at, number, b"settle", &[s]),
        Step::Reclaim(s) => put_head(out, at, number, b"reclaim", &[s]),
        Step::Abandon(s) => put_head(out, at, number, b"abandon", &[s]),
        Step::Cut(k) => put_head(out, at, number, b"cut", &[k]),
    }
}

// The result of a step.
#[tactic(auto, unfolding(crate::specs::Result::outcome_text))]
fn put_outcome(out: &mut [u8], at: usize, outcome: Outcome) -> usize
    requires { at + 118 ≤ length out.old }
    ensures put { Put (outcome_text outcome) at out.old out.new result }
    ensures upper_bound { result ≤ at + 118 }
{
    match outcome {
        Outcome::Refused(refusal) => put_result(out, at, b"no", &[refusal.number()], b""),
        Outcome::Ok => put_result(out, at, b"ok", &[], b""),
        Outcome::Start(n) => put_result(out, at, b"start", &[n], b""),
        Outcome::End(n) => put_result(out, at, b"end", &[n], b""),
        Outcome::Sealed(n) => put_result(out, at, b"sealed", &[n], b""),
        Outcome::Empty => put_result(out, at, b"empty", &[], b""),
        Outcome::Own(words) => put_result(out, at, b"", &words, b"own"),
        Outcome::Copy(words) => put_result(out, at, b"", &words, b"copy"),
        Outcome::Home(words) => put_result(out, at, b"", &words, b"home"),
        Outcome::Wait(n) => put_result(out, at, b"wait", &[n], b""),
        Outcome::None => put_result(out, at, b"none", &[], b""),
        Outcome::Held(n) => put_result(out, at, b"held", &[n], b""),
        Outcome::Cleared(n) => put_result(out, at, b"cleared", &[n], b""),
        Outcome::Cut => put_result(out, at, b"cut", &[], b""),
        Outcome::Noted => put_result(out, at, b"", &[], b""),
    }
}

// A step's line.
pub fn put_line(out: &mut [u8], at: usize, number: u64, step: Step, outcome: Outcome) -> usize
    requires { at + 256 ≤ length out.old }
    ensures put { Put (step_line number step outcome) at out.old out.new result }
    ensures upper_bound { result ≤ at + 256 }
{
    let a = put_step_head(out, at, number, step);
    let b = put_outcome(out, a, outcome);
    out[b] = b'\n';
    b + 1
}

// The line of a step that is refused by any number, a cause's or another.
pub fn put_refused(out: &mut [u8], at: usize, number: u64, step: Step, refusal: u64) -> usize
    requires { at + 256 ≤ length out.old }
    ensures put { Put (refused_line number step refusal) at out.old out.new result }
    ensures upper_bound { result ≤ at + 256 }
{
    let a = put_step_head(out, at, number, step);
    let b = put_result(out, a, b"no", &[refusal], b"");
    out[b] = b'\n';
    b + 1
}

// A line that prints no step: the step's number, a word and numbers.
pub fn put_note(out: &mut [u8], at: usize, number: u64, word: &[u8], values: &[u64]) -> usize
    requires { (at + 80 ≤ length out.old) × (length word.now ≤ 16) × (length values.now ≤ 2) }
    ensures put { Put (note_line number word.now values.now) at out.old out.new result }
    ensures upper_bound { result ≤ at + 80 }
{
    let a = put_head(out, at, number, word, values);
    out[a] = b'\n';
    a + 1
}
