// An image out of bytes, each word lowest byte first.
ghost use Rattle.std.specs.Prelude.{◌≡◌, ◌++◌, ◌*◌, ◌≤◌, length, drop};
ghost use Rattle.sheet.specs.Bytes.{words_in, word_count};

// How many words n bytes are; 0 where they are no whole number of words, or more than the largest image has.
pub fn word_count(n: usize) -> usize
    ensures { result ≡ word_count n }
{
    if n % 8 == 0 && n <= 13856 { n / 8 } else { 0 }
}

// The first k words of the bytes, put at the start of the image.
pub fn put_words(bytes: &[u8], image: &mut [u64], k: usize)
    requires { (8 * k ≤ length bytes.now) × (k ≤ length image.old) }
    ensures { image.new ≡ words_in k bytes.now ++ drop k image.old }
{
    for i in 0..k {
        image[i] = codec::word(bytes, 8 * i);
    }
}
