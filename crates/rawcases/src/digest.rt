// Digests of words.

// Mixes a word into a digest, its low half first.
pub fn mix(d: u64, word: u64) -> u64 {
    let low = (d % 4294967291 * 1000003 + word % 4294967296) % 4294967291;
    (low * 1000003 + word / 4294967296) % 4294967291
}

// Mixes words into a digest, one after the other.
pub fn mix_words(start: u64, words: &[u64]) -> u64 {
    words.iter().fold(start, |d, word| mix(d, *word))
}

// The digest of some words: it starts from their number.
pub fn digest(words: &[u64]) -> u64 {
    mix_words(words.len() as u64, words)
}
