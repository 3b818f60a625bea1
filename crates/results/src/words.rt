// A value as a word of 64 bits, and words in the results that a caller lends.
ghost use Rattle.std.specs.Prelude.{◌≡◌, ◌∷◌, set};
ghost use Rattle.results.specs.Word.{word};
ghost use Rattle.results.specs.Results.{placed};

// Two's complement.
#[tactic(auto, using(crate::proofs::Placed::unsigned_word))]
pub fn word(value: i64) -> u64
    ensures { result ≡ word value }
{
    value.cast_unsigned()
}

// A word beyond the last place is dropped.
pub fn put_word(results: &mut [u64], place: usize, word: u64)
    ensures { results.new ≡ set results.old place word }
{
    if place < results.len() {
        results[place] = word;
    }
}

// The words from place 1 on, one by one: `copy_from_slice` becomes memcpy, and the library calls nothing outside.
#[tactic(auto, using(crate::proofs::Placed::place_more))]
pub fn put_list(results: &mut [u64], words: &[u64])
    ensures { results.new ≡ placed 1 words.now results.old }
{
    for (i, &word) in words.iter().enumerate() {
        put_word(results, i + 1, word);
    }
}

// The bytes used, then the words.
pub fn put(results: &mut [u64], used: u64, words: &[u64])
    ensures { results.new ≡ placed 0 (used ∷ words.now) results.old }
{
    put_word(results, 0, used);
    put_list(results, words);
}
