// What a walk keeps from turn to turn, beside the desk.
ghost use Rattle.std.specs.Prelude.{not, ◌≡◌, ◌+◌, ◌-◌, ◌≤◌, ◌<◌, ◌^◌};
ghost use Rattle.turns.specs.Bounds.{Follows};
ghost use Rattle.turns.specs.State.{first_state, counted_of, written_of, filled_of, stopped_of, opened_of};

// The input held is input[at..have], the lines not yet written are output[..put], the image is the first `size` words (0: not laid yet).
// `cut`: of the next step that stores, so many entries arrive. `ended`: no more input comes.
#[derive(Clone, Copy)]
pub struct State {
    pub at: usize,
    pub have: usize,
    pub put: usize,
    pub size: usize,
    pub number: u64,
    pub cut: Option<u64>,
    pub ended: bool,
    pub next: Next,
}

// What comes next: a step is taken, the image is opened, the lost desk is recovered; no more steps are taken, and the lines held are written
// out; a write of the lines that failed is told; nothing, the last turn is made.
#[derive(Clone, Copy, PartialEq, Eq)]
pub enum Next {
    Step,
    Open,
    Recover,
    Over,
    Failed,
    Stopped,
}

pub fn start(have: usize, ended: bool) -> State
    ensures at_value { (result.at ≡ 0) × (result.have ≡ have) × (result.put ≡ 0) × (result.size ≡ 0) × (result.number ≡ 0) }
    ensures value { result ≡ first_state have ended }
{
    State {
        at: 0,
        have,
        put: 0,
        size: 0,
        number: 0,
        cut: None,
        ended,
        next: Next::Step,
    }
}

// Behind a step of this many bytes, and counting it.
pub fn counted(s: State, bytes: usize) -> State
    requires { (s.at + bytes ≤ s.have) × (s.number + 1 < 2 ^ 64) }
    ensures at_value { (result.at ≡ s.at + bytes) × (result.have ≡ s.have) × (result.put ≡ s.put) × (result.size ≡ s.size) × (result.number
        ≡ s.number + 1) }
    ensures value { result ≡ counted_of s bytes }
{
    State {
        at: s.at + bytes,
        number: s.number + 1,
        ..s
    }
}

// The lines were written out, which takes the failure of a write before away; or not all of them were taken.
pub fn written(s: State, done: bool) -> State
    ensures at_value { (result.at ≡ s.at) × (result.have ≡ s.have) × (result.put ≡ 0) × (result.size ≡ s.size) × (result.number ≡ s.number) }
    ensures value { result ≡ written_of s (not done) }
{
    State {
        put: 0,
        next: match s.next {
            _ if !done => Next::Failed,
            Next::Failed => Next::Step,
            next => next,
        },
        ..s
    }
}

// The bytes held stand first, with those that came behind them; the input has ended where none came.
pub fn filled(s: State, came: usize) -> State
    requires { (s.at ≤ s.have) × (s.have - s.at + came < 2 ^ 64) }
    ensures at_value { (result.at ≡ 0) × (result.have ≡ s.have - s.at + came) × (result.put ≡ s.put) × (result.size ≡ s.size) × (result.number
        ≡ s.number) }
    ensures value { result ≡ filled_of s came }
{
    State {
        at: 0,
        have: s.have - s.at + came,
        ended: came == 0,
        ..s
    }
}

pub fn stopped(s: State) -> State
    ensures follows { Follows s result s.put s.size }
    ensures value { result ≡ stopped_of s }
{
    State {
        next: Next::Stopped,
        ..s
    }
}

// The image is opened; what else comes next stays.
pub fn opened(s: State) -> State
    ensures follows { Follows s result s.put s.size }
    ensures value { result ≡ opened_of s }
{
    State {
        next: if s.next == Next::Open {
            Next::Step
        } else {
            s.next
        },
        ..s
    }
}
