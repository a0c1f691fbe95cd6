// Parts of slices of words: handed on as they are, compared, laid over others. None of these refuses anything.
#![tactic(auto)]

ghost use Rattle.std.specs.Prelude.{◌≡◌, ◌+◌, ◌%◌, min, replicate};
ghost use Rattle.bits.specs.Words.{reserved_code};
ghost use Rattle.parts.specs.Parts.{any, laid, part, same};

use std::ops::Range;

// The part of a slice from a place on, of as many words as asked or as there are.
pub fn part<'a>(words: &'a [u16], from: usize, count: usize) -> &'a [u16]
    ensures { result.now ≡ part from count words.now }
{
    &words[range(words.len(), from, count)]
}

// Where a part stands in a slice of so many words: from a place on, of as many words as asked or as there are.
pub fn range(length: usize, from: usize, count: usize) -> Range<usize>
    ensures start { result.start ≡ min from length }
    ensures end { result.end ≡ min (from + count) length }
{
    from.min(length)..from.saturating_add(count).min(length)
}

// Whether two slices hold the same words.
pub fn same(first: &[u16], second: &[u16]) -> bool
    ensures { result ≡ same first.now second.now }
{
    first == second
}

// Whether the low ten bits of a word are a reserved code: by one comparison a word and no early return, so that many words are compared at once.
fn any_low_reserved(words: &[u16]) -> bool
    ensures { result ≡ any (λ w. reserved_code (w % 1024)) words.now }
{
    words.iter().fold(false, |found, word| found | ((*word % 1024 + 4) % 1024 < 8))
}

// Whether a word is a reserved code. Where the low ten bits of none are one, as most often, no word is; else each is looked at.
pub fn any_reserved(words: &[u16]) -> bool
    ensures { result ≡ any reserved_code words.now }
{
    any_low_reserved(words) && words.iter().any(|word| bits::reserved(*word))
}

// Lays words from a place on; those that find no place are not laid.
pub fn lay(buffer: &mut [u16], at: usize, words: &[u16])
    ensures { buffer.new ≡ laid at words.now buffer.old }
{
    let here = range(buffer.len(), at, words.len());
    let places = &mut buffer[here];
    places.copy_from_slice(part(words, 0, places.len()));
}

// Lays a word so many times from a place on; where no place is left, no more.
pub fn fill(buffer: &mut [u16], at: usize, count: usize, word: u16)
    ensures { buffer.new ≡ laid at (replicate count word) buffer.old }
{
    let here = range(buffer.len(), at, count);
    buffer[here].fill(word);
}
