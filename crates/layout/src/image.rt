// An image is a lent slice of words, of any length.
ghost use Rattle.std.specs.Prelude.{◌≡◌, ◌≤◌};
ghost use Rattle.layout.specs.Image.{word as word_of, in_range, size_of, shaped_b};

// Word i of the image; 0 past its end.
pub fn word(image: &[u64], i: u64) -> u64
    ensures { result ≡ word_of image.now i }
{
    image.get(i as usize).copied().unwrap_or(0)
}

// Whether an image may have n records and m sessions.
pub fn in_range(n: u64, m: u64) -> bool
    ensures { result ≡ in_range n m }
{
    (1..=256).contains(&n) && (1..=16).contains(&m)
}

// How many words an image of n records and m sessions has.
pub(crate) fn size_of(n: u64, m: u64) -> u64
    requires { (n ≤ 256) × (m ≤ 16) }
    ensures { result ≡ size_of n m }
{
    4 + 4 * n + 44 * m
}

// Whether header and length are right: what check 1 asks.
#[tactic(auto, unfolding(crate::specs::Image::shaped_b))]
pub fn shaped(image: &[u64]) -> bool
    ensures { result ≡ shaped_b image.now }
{
    let n = word(image, 1);
    let m = word(image, 2);
    word(image, 0) == 1 && in_range(n, m) && image.len() as u64 == size_of(n, m)
}
