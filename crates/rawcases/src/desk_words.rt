// A desk as 659 words: a desk out of them, and their digest. The functions that have a `requires` are for use inside this crate.
ghost use Rattle.std.specs.Prelude.{◌≡◌, ◌+◌, ◌≤◌, length};

use crate::digest::{mix, mix_words};
use std::array;
use store::{Desk, Phase, RecordCopy, Session};

fn phase_of(kind: u64, number: u64) -> Phase {
    match kind {
        1 => Phase::Active(number),
        2 => Phase::Sealed(number),
        3 => Phase::Published(number),
        _ => Phase::Idle,
    }
}

fn copy_of(w: &[u64], at: usize) -> RecordCopy
    requires { at + 5 ≤ length w.now }
{
    RecordCopy {
        rec: w[at],
        words: [w[at + 1], w[at + 2], w[at + 3], w[at + 4]],
    }
}

fn session_of(w: &[u64], at: usize) -> Session
    requires { at + 24 ≤ length w.now }
{
    Session {
        phase: phase_of(w[at], w[at + 1]),
        count: w[at + 2],
        slot: w[at + 3],
        copies: array::from_fn(|j| copy_of(w, at + 4 + 5 * j)),
    }
}

fn sessions_of(w: &[u64]) -> [Session; 16]
    requires { length w.now ≡ 659 }
{
    array::from_fn(|s| session_of(w, 259 + 24 * s))
}

fn marks_of(w: &[u64]) -> [u8; 256]
    requires { length w.now ≡ 659 }
{
    array::from_fn(|i| (w[3 + i] % 256) as u8)
}

fn order_of(w: &[u64]) -> [u8; 16]
    requires { length w.now ≡ 659 }
{
    array::from_fn(|i| (w[643 + i] % 256) as u8)
}

// The desk that the words stand for.
pub fn desk_of(w: &[u64]) -> Desk
    requires { length w.now ≡ 659 }
{
    Desk {
        clock: w[0],
        n: w[1],
        m: w[2],
        holders: marks_of(w),
        sessions: sessions_of(w),
        order: order_of(w),
    }
}

fn phase_words(p: Phase) -> [u64; 2] {
    match p {
        Phase::Idle => [0, 0],
        Phase::Active(start) => [1, start],
        Phase::Sealed(persist) => [2, persist],
        Phase::Published(end) => [3, end],
    }
}

fn mix_copy(d: u64, c: &RecordCopy) -> u64 {
    mix_words(mix(d, c.rec), &c.words)
}

fn mix_session(d: u64, e: &Session) -> u64 {
    let head = mix_words(mix_words(d, &phase_words(e.phase)), &[e.count, e.slot]);
    e.copies.iter().fold(head, |d, c| mix_copy(d, c))
}

// Mixes bytes into a digest, each as a word.
fn mix_bytes(start: u64, bytes: &[u8]) -> u64 {
    bytes.iter().fold(start, |d, byte| mix(d, u64::from(*byte)))
}

// The digest of the words that a desk stands for.
pub fn desk_digest(desk: Desk) -> u64 {
    let head = mix_words(659, &[desk.clock, desk.n, desk.m]);
    let marks = mix_bytes(head, &desk.holders);
    let sessions = desk.sessions.iter().fold(marks, |d, e| mix_session(d, e));
    mix_bytes(sessions, &desk.order)
}
