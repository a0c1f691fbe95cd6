// Words and their bits: what all layers share.
#![tactic(auto)]

ghost use Rattle.std.specs.Prelude.{◌≡◌, set};
ghost use Rattle.bits.specs.Words.{words10, reserved_code, nine_of};

// Whether every word is at most 3FF. There is no early return, so that many words are compared at once.
pub fn all_words(words: &[u16]) -> bool
    ensures { result ≡ words10 words.now }
{
    words.iter().fold(true, |all, word| all & (*word <= 0x3ff))
}

// Whether a word is a reserved code.
#[tactic(auto, unfolding(crate::specs::Words::reserved_code))]
pub fn reserved(word: u16) -> bool
    ensures { result ≡ reserved_code word }
{
    matches!(word, 0x000..=0x003 | 0x3fc..=0x3ff)
}

// The low nine bits of `n`, with bit 9 the inverse of bit 8.
#[tactic(auto, unfolding(crate::specs::Words::nine_of, crate::specs::Bits::odd))]
pub fn nine(n: u16) -> u16
    ensures { result ≡ nine_of n }
{
    if n / 256 % 2 == 1 {
        return n % 512;
    }
    n % 512 + 512
}

// Stores a word at a place; where there is no such place, nothing.
pub fn put(buffer: &mut [u16], at: usize, word: u16)
    ensures { buffer.new ≡ set buffer.old at word }
{
    if at < buffer.len() {
        buffer[at] = word;
    }
}
