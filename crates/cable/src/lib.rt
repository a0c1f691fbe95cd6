// Cable bits: scrambling and unscrambling, a word at a time.
#![tactic(auto)]

ghost use Rattle.std.specs.Prelude.{◌≡◌, ℕ, List, ◌/◌, ◌≤◌, ◌<◌, length};
ghost use Rattle.bits.specs.Bits.{odd, bits, number};
ghost use Rattle.refusal.specs.Refusal.{result_of};
ghost use Rattle.cable.specs.Bits.{levels, past, scrambler, nrzi};
ghost use Rattle.cable.specs.Words.{scramble_word, unscramble_word, scramble_words, unscramble_words, scramble_next, unscramble_next, code_refusal, coded, filled};
ghost use Rattle.cable.specs.Stepwise.{Stepwise};

use refusal::Refusal;

// Ten data bits from ten cable bits after a history: with x for one bit before, d = (1 + x)(1 + x^5 + x^9), so each factor is applied to the ten
// bits of the word, and to those of the history for the bits that look back. All fits sixteen bits, so that a loop over words takes many at once;
// what a shift leaves above the tenth bit is cut off once, at the end.
#[tactic(auto, using(crate::proofs::Codes::unscramble_code))]
pub fn unscramble_word(history: u16, word: u16) -> u16
    ensures { result ≡ unscramble_word history word }
{
    let h = history % 1024;
    let g = (h / 2) ^ h;
    let u = word ^ (word << 1);
    ((u ^ (g / 512)) ^ ((u << 5) ^ (g / 16)) ^ ((u << 9) ^ g)) % 1024
}

// The scrambled bits of ten data bits, five at a time: the first five look back into the history alone, the others into those.
#[tactic(auto, using(crate::proofs::Codes::scrambler_code))]
fn scrambled_bits(history: u16, word: u16) -> u32
    ensures { result ≡ number (scrambler (levels (past history)) (bits 10 word)) }
{
    let h = (history % 1024) as u32;
    let d = (word % 1024) as u32;
    let s = (h / 2) ^ h;
    let low = (d ^ (s / 16) ^ s) % 32;
    let high = ((d / 32) ^ low ^ (s / 32 % 16 + low * 16)) % 32;
    low + high * 32
}

// NRZI of the ten bits above the lowest, after the lowest: a running xor, by doubling.
#[tactic(auto, using(crate::proofs::Codes::running_code))]
fn running(x: u32) -> u32
    ensures { result ≡ number (nrzi (odd x) (bits 10 (x / 2))) }
{
    let one = x % 2048;
    let two = (one ^ (one * 2)) % 2048;
    let four = (two ^ (two * 4)) % 2048;
    let eight = (four ^ (four * 16)) % 2048;
    let all = (eight ^ (eight * 256)) % 2048;
    all / 2
}

// Ten cable bits from ten data bits after a history.
#[tactic(auto, using(crate::proofs::Codes::scramble_code, crate::proofs::Codes::scrambler_lt, crate::proofs::Codes::running_lt))]
fn scramble_word(history: u16, word: u16) -> u16
    ensures { result ≡ scramble_word history word }
{
    let s = scrambled_bits(history, word);
    let w = running(s * 2 + (history % 1024 / 512) as u32);
    w as u16
}

// The refusal of scrambling and unscrambling: 3, then 1.
#[tactic(auto, unfolding(crate::specs::Words::code_refusal, refusal::specs::Refusal::refusal_numbered))]
fn code_refusal(history: u16, words: &[u16], room: usize) -> Result<(), Refusal>
    ensures { result ≡ result_of (code_refusal history words.now room) tt }
{
    if history > 0x3ff || !bits::all_words(words) {
        return Err(Refusal::TooHigh);
    }
    if words.len() > room {
        return Err(Refusal::NoRoom);
    }
    Ok(())
}

// Codes words, one after the other, into an output that has the room, and answers the next history. A step makes of a history and a word the word
// that is written and the history after it.
fn code<F: Fn(u16, u16) -> (u16, u16)>(history: u16, words: &[u16], out: &mut [u16], step: F) -> u16
    requires callable { F.IsAlwaysCallable step }
    requires room { length words.now ≤ length out.old }
    ensures { (made : List ℕ) × Stepwise (F.post step) history words.now made result × (out.new ≡ filled 0 made out.old) }
{
    let mut h = history;
    // by index, since what is written through a `zip` with `iter_mut` is lost to a proof
    for (i, word) in words.iter().enumerate() {
        (out[i], h) = step(h, *word);
    }
    h
}

// Scrambles words, in the order in which they are sent (C, Y, C, Y ..), after a history; 3, 1.
pub fn scramble(history: u16, words: &[u16], out: &mut [u16]) -> Result<u16, Refusal>
    ensures answer { result ≡ coded (code_refusal history words.now (length out.old)) (scramble_next history words.now) }
    ensures output { out.new ≡ filled (code_refusal history words.now (length out.old)) (scramble_words history words.now) out.old }
{
    code_refusal(history, words, out.len())?;
    Ok(code(history, words, out, |h, word| {
        let cable = scramble_word(h, word);
        (cable, cable)
    }))
}

// Unscrambles words, in the order in which they came, after a history; 3, 1.
pub fn unscramble(history: u16, words: &[u16], out: &mut [u16]) -> Result<u16, Refusal>
    ensures answer { result ≡ coded (code_refusal history words.now (length out.old)) (unscramble_next history words.now) }
    ensures output { out.new ≡ filled (code_refusal history words.now (length out.old)) (unscramble_words history words.now) out.old }
{
    code_refusal(history, words, out.len())?;
    Ok(code(
        history,
        words,
        out,
        |h, word| (unscramble_word(h, word), word),
    ))
}
