// A step out of bytes.
ghost use Rattle.std.specs.Prelude.{◌≡◌, ◌+◌, ◌≤◌, ◌<◌, length, drop, get_or};
ghost use Rattle.codec.specs.Bytes.{little};
ghost use Rattle.codec.specs.Steps.{body_of, step_of, records_of_byte, step_words, size_of, decode_of};

use crate::step::Step;

// What stands at the start of some bytes: a step and the bytes that it takes, an unknown kind, a part of a step, or the input's end.
#[derive(Clone, Copy)]
pub enum Found {
    Whole(Step, usize),
    Bad,
    Short,
    End,
}

const BODIES: [usize; 10] = [2, 1, 2, 34, 1, 1, 1, 1, 1, 1];

fn body_of(kind: u8) -> usize
    requires { kind < 10 }
    ensures { (result ≡ body_of kind) × (result ≤ 34) }
{
    BODIES[usize::from(kind)]
}

// Eight bytes, lowest first.
#[tactic(auto, using(crate::proofs::Little::little_eight))]
pub fn word(s: &[u8], at: usize) -> u64
    requires { at + 8 ≤ length s.now }
    ensures { result ≡ little 8 (drop at s.now) }
{
    let mut bytes = [0; 8];
    bytes.copy_from_slice(&s[at..at + 8]);
    u64::from_le_bytes(bytes)
}

// The words of a write, behind its kind, session and record.
#[tactic(auto, unfolding(crate::specs::Steps::step_words))]
fn words_of(s: &[u8]) -> [u64; 4]
    requires { 35 ≤ length s.now }
    ensures { result ≡ step_words s.now }
{
    [word(s, 3), word(s, 11), word(s, 19), word(s, 27)]
}

fn records_of_byte(byte: u8) -> u64
    ensures { result ≡ records_of_byte byte }
{
    if byte == 0 { 256 } else { u64::from(byte) }
}

// The step of a known kind whose body is there.
#[tactic(auto, unfolding(crate::specs::Steps::step_of))]
fn step_of(kind: u8, s: &[u8]) -> Step
    requires { (kind < 10) × (body_of kind + 1 ≤ length s.now) }
    ensures { result ≡ step_of kind (get_or s.now 1 0) (get_or s.now 2 0) (step_words s.now) }
{
    let first = u64::from(s[1]);
    match kind {
        0 => Step::Lay(records_of_byte(s[1]), u64::from(s[2])),
        1 => Step::Begin(first),
        2 => Step::Read(first, u64::from(s[2])),
        3 => Step::Write(first, u64::from(s[2]), words_of(s)),
        4 => Step::Finish(first),
        5 => Step::Publish(first),
        6 => Step::Settle(first),
        7 => Step::Reclaim(first),
        8 => Step::Abandon(first),
        _ => Step::Cut(first),
    }
}

// The step that starts the bytes.
#[tactic(auto, using(crate::proofs::Cases::cases))]
pub fn decode(s: &[u8]) -> Found
    ensures value { result ≡ decode_of s.now }
    ensures size_in_bounds { size_of result ≤ length s.now }
{
    let Some(&kind) = s.first() else {
        return Found::End;
    };
    if 9 < kind {
        return Found::Bad;
    }
    let size = body_of(kind) + 1;
    if s.len() < size {
        return Found::Short;
    }
    Found::Whole(step_of(kind, s), size)
}
