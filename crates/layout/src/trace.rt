// Stores to a part of the image, each listed in the trace. For the crates above: there is room in both, which their checks have shown.
ghost use Rattle.std.specs.Prelude.{◌≡◌, [], ◌∷◌, ◌+◌, ◌*◌, ◌≤◌, length, set};
ghost use Rattle.layout.specs.Entries.{store, fence, stores};
ghost use Rattle.layout.specs.Image.{home_at};
ghost use Rattle.layout.specs.Homes.{home_writes};
ghost use Rattle.layout.specs.Trace.{Did, Room, Fenced, word_writes};

use crate::index::home_at;

// The index that lists a fence.
const FENCE: u64 = u64::MAX;

// One entry of the trace, at the word `at`; the answer is the place of the next.
fn put(trace: &mut [u64], at: usize, index: u64, word: u64) -> usize
    requires { at + 2 ≤ length trace.old }
    ensures { (trace.new ≡ set (set trace.old at index) (at + 1) word) × (result ≡ at + 2) }
{
    trace[at] = index;
    trace[at + 1] = word;
    at + 2
}

// One store at word i of the part that starts at `base` of the image, listed with its index in the image.
pub fn put_store(
    part: &mut [u64],
    base: u64,
    trace: &mut [u64],
    at: usize,
    i: usize,
    word: u64,
) -> usize
    requires { Room 1 base i at part.old trace.old }
    ensures { Did (store i word ∷ []) base at part.old trace.old part.new trace.new result }
{
    part[i] = word;
    put(trace, at, base + i as u64, word)
}

// A fence, listed.
pub fn put_fence(trace: &mut [u64], at: usize) -> usize
    requires { at + 2 ≤ length trace.old }
    ensures { Fenced at trace.old trace.new result }
{
    put(trace, at, FENCE, 0)
}

// A record's four words, from word i of the part on.
pub fn put_words(
    part: &mut [u64],
    base: u64,
    trace: &mut [u64],
    at: usize,
    i: usize,
    words: [u64; 4],
) -> usize
    requires { Room 4 base i at part.old trace.old }
    ensures { Did (stores (word_writes i words)) base at part.old trace.old part.new trace.new result }
{
    let a = put_store(part, base, trace, at, i, words[0]);
    let b = put_store(part, base, trace, a, i + 1, words[1]);
    let c = put_store(part, base, trace, b, i + 2, words[2]);
    put_store(part, base, trace, c, i + 3, words[3])
}

// A record's four words to its home in the image.
pub fn put_home(image: &mut [u64], trace: &mut [u64], at: usize, rec: u64, words: [u64; 4]) -> usize
    requires { (rec ≤ 256) × Room 4 0 (home_at rec) at image.old trace.old }
    ensures { Did (stores (home_writes rec words)) 0 at image.old trace.old image.new trace.new result }
{
    let i = home_at(rec) as usize;
    put_words(image, 0, trace, at, i, words)
}
