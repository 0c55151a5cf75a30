// A case out of packed bytes. The functions that have a `requires` are for use inside this crate.
ghost use Rattle.std.specs.Prelude.{◌+◌, ◌≤◌, ◌<◌, IfSome};

// The words of a case, and the number of bytes that it takes.
#[derive(Clone, Copy)]
pub struct Case {
    pub words: [u64; 2470],
    pub size: usize,
}

// Some of the bytes: how many they are, and how many words they stand for, of which the first is `word` and the others are 0.
#[derive(Clone, Copy)]
struct Token {
    size: usize,
    times: usize,
    word: u64,
}

fn wide(byte: u8) -> u64
    ensures { result < 256 }
{
    byte as u64
}

// The input's byte i; 0 past its end.
fn byte(input: &[u8; 65536], i: usize) -> u64
    ensures { result < 256 }
{
    if i < 65536 { wide(input[i]) } else { 0 }
}

// The bytes behind the first of a token: none for a small word, the length of a run of zeros, or one to eight of a word.
fn bytes_behind(first: u64) -> usize
    ensures { result < 9 }
{
    if first < 247 {
        return 0;
    }
    if first == 247 {
        1
    } else {
        (first - 247) as usize % 9
    }
}

// The bytes behind the place `at` as a number, lowest first.
fn little(input: &[u8; 65536], at: usize, bytes: usize) -> u64
    requires { (at ≤ 65536) × (bytes < 9) }
{
    let mut word: u64 = 0;
    for j in (0..bytes).rev() {
        word = word % 72057594037927936 * 256 + byte(input, at + 1 + j);
    }
    word
}

// The token at a place.
fn token_at(input: &[u8; 65536], at: usize) -> Token
    requires { at ≤ 65536 }
    ensures { (0 < result.size) × (result.size ≤ 9) × (result.times < 256) }
{
    let first = byte(input, at);
    let bytes = bytes_behind(first);
    let number = little(input, at, bytes);
    let size = bytes + 1;
    if first == 247 {
        return Token {
            size,
            times: (number % 256) as usize,
            word: 0,
        };
    }
    Token {
        size,
        times: 1,
        word: if first < 247 { first } else { number },
    }
}

// A size that is at most `most`, or else 0.
pub fn within(size: u64, most: usize) -> usize
    ensures { result ≤ most }
{
    if size <= most as u64 {
        size as usize
    } else {
        0
    }
}

// Whether the call is known and the lengths of the trace and the image are within their bounds.
fn sound(words: [u64; 2470]) -> bool {
    words[0] <= 20 && words[9] <= 64 && words[10] <= 1800
}

// Unpacks the case at a place of the input held; none where there is no whole case, or one that is out of bounds.
pub fn unpack(input: &[u8; 65536], from: usize, have: usize) -> Option<Case>
    requires { (from ≤ have) × (have ≤ 65536) }
    ensures { IfSome result (λ c. from + c.size ≤ have) }
{
    let mut words = [0; 2470];
    let mut n = 0;
    let mut end = 670;
    let mut at = from;
    while n < end && at < have {
        let t = token_at(input, at);
        words[n] = t.word;
        n += t.times;
        at += t.size;
        end = 670 + within(words[10], 1800);
    }
    if n == end && at <= have && sound(words) {
        let size = at - from;
        Some(Case { words, size })
    } else {
        None
    }
}
