// Words of 64 bits: bit i of them is bit i % 64 of word i / 64, the lowest first.
#![tactic(auto)]

ghost use Rattle.std.specs.Prelude.{◌≡◌, true, false, ◌*◌, ◌^◌, ◌<◌, length};
ghost use Rattle.bit_words.specs.View.{word_bits, is_set, LowestSet, LeastClear, PastSet, BitChanged};

// How many bits a word has.
pub const WORD: usize = 64;

// Whether a bit is set.
pub fn is_set(at: usize, words: &[u64]) -> bool
    requires { at < word_bits * length words.now }
    ensures { result ≡ is_set words.now at }
{
    (words[at / WORD] >> (at % WORD)) % 2 == 1
}

// Sets a bit, whatever it is.
pub fn set_bit(at: usize, words: &mut [u64])
    requires { at < word_bits * length words.old }
    ensures { BitChanged at true words.old words.new }
{
    let mask: u64 = 1 << (at % WORD);
    words[at / WORD] |= mask;
}

// Clears a bit, whatever it is.
pub fn clear_bit(at: usize, words: &mut [u64])
    requires { at < word_bits * length words.old }
    ensures { BitChanged at false words.old words.new }
{
    let mask: u64 = 1 << (at % WORD);
    words[at / WORD] &= !mask;
}

// The lowest set bit of a word.
fn lowest_set(word: u64) -> u32
    requires { 0 < word }
    ensures { LowestSet word_bits word result }
{
    word.trailing_zeros()
}

// The least clear bit, found from the first word that has one; no word is read twice. The number of all bits where all are set.
pub fn least_clear(words: &[u64]) -> usize
    requires { word_bits * length words.now < 2 ^ 64 }
    ensures { LeastClear words.now result }
{
    for (i, word) in words.iter().enumerate() {
        let clear = !*word;
        if clear != 0 {
            return WORD * i + lowest_set(clear) as usize;
        }
    }
    WORD * words.len()
}

// The position past the greatest set bit, found from the last word that has one; 0 where none is set.
pub fn past_set(words: &[u64]) -> usize
    requires { word_bits * length words.now < 2 ^ 64 }
    ensures { PastSet words.now result }
{
    for i in (0..words.len()).rev() {
        let word = words[i];
        if word != 0 {
            return WORD * (i + 1) - word.leading_zeros() as usize;
        }
    }
    0
}
