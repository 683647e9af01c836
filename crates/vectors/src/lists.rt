// The lists of a case: each is its length and its words.
ghost use Rattle.std.specs.Prelude.{◌≡◌, ◌≤◌, min, length, take, drop, slice_index};

// The first list, as far as it is there, and the words behind it.
pub fn split_list(words: &[u32]) -> (&[u32], &[u32])
    ensures list { result.0.now ≡ take (slice_index words.now 0) (drop 1 words.now) }
    ensures behind { result.1.now ≡ drop (slice_index words.now 0) (drop 1 words.now) }
{
    match words.split_first() {
        Some((n, rest)) => rest.split_at(rest.len().min(*n as usize)),
        None => (words, words),
    }
}

// The words from `at` on.
pub fn words_from(words: &[u32], at: usize) -> &[u32]
    ensures { result.now ≡ drop (min at (length words.now)) words.now }
{
    &words[at.min(words.len())..]
}

// Word k, or 0.
pub fn number(words: &[u32], k: usize) -> u32
    ensures { result ≡ slice_index words.now k }
{
    words.get(k).copied().unwrap_or(0)
}

// How many words or halves are lent: word k, and `most` at the most.
pub fn lent(words: &[u32], k: usize, most: usize) -> usize
    ensures { result ≤ most }
{
    most.min(number(words, k) as usize)
}
