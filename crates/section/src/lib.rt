// Words of a bench file's section read at once, where a reader stands before them.
#![tactic(auto)]

ghost use Rattle.std.specs.Prelude.{◌≡◌, ◌*◌, ◌≤◌, length, take};
ghost use Rattle.section.specs.Section.{after_words, run_of, run_words, words_ahead, words_in};

use reader::{Count, Reader, Stage};

// How many words were read, and the reader after them.
#[derive(Clone, Copy)]
pub struct Run {
    pub reader: Reader,
    pub words: usize,
}

// Lays the words of the bytes over `words`. By index: what an adapter of `iter_mut` lends, a proof knows nothing of once it is written.
#[tactic(auto, using(crate::proofs::Words::over_step))]
fn lay_words(bytes: &[u8], words: &mut [u16])
    requires { 2 * length words.old ≤ length bytes.now }
    ensures { words.new ≡ take (length words.old) (words_in bytes.now) }
{
    for i in 0..words.len() {
        words[i] = u16::from_le_bytes([bytes[2 * i], bytes[2 * i + 1]]);
    }
}

// How many words may be read at once: all that are left but the last, which ends a job; none where no word starts here.
#[tactic(auto, unfolding(crate::specs::Section::words_ahead))]
fn words_ahead(reader: Reader) -> usize
    ensures { result ≡ words_ahead reader }
{
    match reader.stage {
        Stage::LowByte => reader.count.left.saturating_sub(1) as usize,
        _ => 0,
    }
}

// After so many words, with which the bytes start.
#[tactic(auto, unfolding(crate::specs::Section::after_words))]
fn after_words(reader: Reader, n: usize, bytes: &[u8]) -> Reader
    requires { (n ≤ reader.count.left) × (2 * n ≤ length bytes.now) }
    ensures { result ≡ after_words n reader bytes.now }
{
    if n == 0 {
        return reader;
    }
    let count = Count {
        left: reader.count.left - n as u32,
        seen: 0,
    };
    Reader {
        stage: Stage::LowByte,
        count,
        low: bytes[2 * n - 2],
        ..reader
    }
}

// Reads words at once into the first places of `words`: as many as may be and there are bytes and room for. None above 3FF is refused here.
#[tactic(auto, using(crate::proofs::Runs::ahead_within))]
pub fn read_words(reader: Reader, bytes: &[u8], words: &mut [u16]) -> Run
    ensures answer { result ≡ run_of reader bytes.now (length words.old) }
    ensures output { words.new ≡ run_words reader bytes.now words.old }
{
    let n = words_ahead(reader).min(bytes.len() / 2).min(words.len());
    lay_words(bytes, &mut words[..n]);
    Run {
        reader: after_words(reader, n, bytes),
        words: n,
    }
}
