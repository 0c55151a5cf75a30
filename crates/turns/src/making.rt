// One step on the store, and the lines that it prints.
ghost use Rattle.std.specs.Prelude.{◌≡◌, ◌+◌, ◌≤◌, length, take};
ghost use Rattle.layout.specs.Entries.{made, listed};
ghost use Rattle.layout.specs.Told.{lay_told};
ghost use Rattle.recovery.specs.Recover.{recover_reply, recover_entries};
ghost use Rattle.steps.specs.Apply.{outcome_of, applied_of, applied_entries};
ghost use Rattle.steps.specs.Cut.{overlaid};
ghost use Rattle.lines.specs.Result.{step_line, bad_line, replayed_line, open_line};
ghost use Rattle.codec.specs.declared.step.Step.TheVariants.{Lay};
ghost use Rattle.turns.specs.Bounds.{Ready, Follows};
ghost use Rattle.turns.specs.Make.{image_size, stores_b, cut_of, is_cut_b, arrives_of, kept_of, shown_of, noted_of, told_of, bad_of, replayed_of};
ghost use Rattle.turns.specs.Make.{recovered_of};
ghost use Rattle.turns.specs.Make.{resumed_line, resumed_of, laying, laid_of, memory_of, PutsLine};

use crate::state::{Next, State};
use codec::Step;
use lines::Outcome;
use steps::Applied;
use store::Desk;

// The words of an image for n records and m sessions; 0 where the memory has fewer.
fn image_size(memory: usize, n: u64, m: u64) -> usize
    ensures upper_bound { result ≤ memory }
    ensures value { result ≡ image_size memory n m }
{
    if 256 < n || 16 < m {
        return 0;
    }
    let size = (4 + 4 * n + 44 * m) as usize;
    if size <= memory { size } else { 0 }
}

// Puts the line "bad"; no more steps are taken.
pub fn bad(output: &mut [u8], s: State) -> State
    requires { s.put + 256 ≤ length output.old }
    ensures follows { Follows s result (length output.old) s.size }
    ensures puts_line { PutsLine (bad_line s.number) s (bad_of s) output.old output.new result }
{
    State {
        put: lines::put_note(output, s.put, s.number, b"bad", &[]),
        next: Next::Over,
        ..s
    }
}

// Lays the image, which is then to be opened; refused, no more steps are taken.
pub fn lay_out(image: &mut [u64], output: &mut [u8], s: State, n: u64, m: u64) -> State
    requires { Ready s (length output.old) (length image.old) }
    ensures follows { Follows s result (length output.old) (length image.old) }
    ensures puts_line { PutsLine (step_line s.number (Lay n m) (outcome_of (lay_told (laying image.old n m)))) s
        (laid_of s (image_size (length image.old) n m) (laying image.old n m)) output.old
        output.new result }
    ensures image_after { image.new ≡ memory_of image.old n m }
{
    let size = image_size(image.len(), n, m);
    let step = Step::Lay(n, m);
    match store::lay(&mut image[..size], n, m) {
        Err(refusal) => State {
            put: lines::put_line(output, s.put, s.number, step, Outcome::Refused(refusal)),
            next: Next::Over,
            ..s
        },
        Ok(()) => State {
            put: lines::put_line(output, s.put, s.number, step, Outcome::Ok),
            size,
            next: Next::Open,
            ..s
        },
    }
}

// The steps that a cut waits for.
fn stores(step: Step) -> bool
    ensures { result ≡ stores_b step }
{
    matches!(
        step,
        Step::Finish(_) | Step::Publish(_) | Step::Settle(_) | Step::Reclaim(_)
    )
}

// The k of the cut that waits for the step.
fn cut_of(s: State, step: Step) -> Option<u64>
    ensures { result ≡ cut_of s step }
{
    if stores(step) { s.cut } else { None }
}

// Makes a step of whose entries only the first k arrive.
fn make_cut(
    image: &mut [u64],
    before: &mut [u64],
    trace: &mut [u64],
    desk: Desk,
    step: Step,
    k: u64,
) -> Applied
    requires { length image.old ≤ length before.old }
    ensures reply { result ≡ applied_of image.old desk (length trace.old) step }
    ensures image { image.new
        ≡ made (take k (applied_entries image.old desk (length trace.old) step)) image.old }
    ensures trace { trace.new
        ≡ listed (applied_entries image.old desk (length trace.old) step) trace.old }
    ensures before { before.new ≡ overlaid image.old before.old }
{
    steps::keep(image, before);
    let a = steps::apply(image, desk, trace, step);
    steps::cut_back(image, before, trace, a.entries, k);
    a
}

// Makes a step, whole or cut.
pub fn make(
    image: &mut [u64],
    before: &mut [u64],
    trace: &mut [u64],
    desk: Desk,
    step: Step,
    s: State,
) -> Applied
    requires { length image.old ≤ length before.old }
    ensures reply { result ≡ applied_of image.old desk (length trace.old) step }
    ensures image { image.new
        ≡ made (arrives_of s step (applied_entries image.old desk (length trace.old) step)) image.old }
    ensures trace { trace.new
        ≡ listed (applied_entries image.old desk (length trace.old) step) trace.old }
    ensures before { before.new ≡ kept_of s step image.old before.old }
{
    match cut_of(s, step) {
        Some(k) => make_cut(image, before, trace, desk, step, k),
        None => steps::apply(image, desk, trace, step),
    }
}

// The result that a step shows: "cut" where it is cut and has entries.
fn shown(outcome: Outcome, cut: bool, entries: u64) -> Outcome
    ensures { result ≡ shown_of outcome cut entries }
{
    if cut & (entries != 0) {
        Outcome::Cut
    } else {
        outcome
    }
}

// Notes the cut of a step 9; a second one replaces it.
fn noted(s: State, step: Step) -> State
    ensures follows { Follows s result s.put s.size }
    ensures value { result ≡ noted_of s step }
{
    match step {
        Step::Cut(k) => State { cut: Some(k), ..s },
        _ => s,
    }
}

// Puts the line of a step that was made; after a cut the desk is lost.
pub fn tell(output: &mut [u8], s: State, step: Step, outcome: Outcome, entries: u64) -> State
    requires { s.put + 256 ≤ length output.old }
    ensures follows { Follows s result (length output.old) s.size }
    ensures puts_line { PutsLine (step_line s.number step (shown_of outcome (is_cut_b s step) entries)) s (told_of s step) output.old
        output.new result }
{
    let cut = cut_of(s, step).is_some();
    let put = lines::put_line(output, s.put, s.number, step, shown(outcome, cut, entries));
    let t = State {
        put,
        ..noted(s, step)
    };
    if cut {
        State {
            cut: None,
            next: Next::Recover,
            ..t
        }
    } else {
        t
    }
}

fn replayed(output: &mut [u8], s: State, persist: u64) -> State
    requires { s.put + 256 ≤ length output.old }
    ensures follows { Follows s result (length output.old) s.size }
    ensures puts_line { PutsLine (replayed_line s.number persist) s (replayed_of s) output.old output.new result }
{
    State {
        put: lines::put_note(output, s.put, s.number, b"replayed", &[persist]),
        ..s
    }
}

// Puts the line "open"; the image is then to be opened.
fn recovered(output: &mut [u8], s: State) -> State
    requires { s.put + 256 ≤ length output.old }
    ensures follows { Follows s result (length output.old) s.size }
    ensures puts_line { PutsLine (open_line s.number) s (recovered_of s) output.old output.new result }
{
    State {
        put: lines::put_note(output, s.put, s.number, b"open", &[]),
        next: Next::Open,
        ..s
    }
}

// One call of recover after a cut, until it finds nothing to replay.
pub fn resume(image: &mut [u64], trace: &mut [u64], output: &mut [u8], s: State) -> State
    requires { s.put + 256 ≤ length output.old }
    ensures follows { Follows s result (length output.old) s.size }
    ensures puts_line { PutsLine (resumed_line s.number (recover_reply image.old (length trace.old)).answer) s
        (resumed_of s (recover_reply image.old (length trace.old)).answer) output.old output.new
        result }
    ensures image_after { image.new ≡ made (recover_entries image.old (length trace.old)) image.old }
    ensures trace_after { trace.new ≡ listed (recover_entries image.old (length trace.old)) trace.old }
{
    if let Ok(Some(persist)) = store::recover(image, trace).answer {
        replayed(output, s, persist)
    } else {
        recovered(output, s)
    }
}
