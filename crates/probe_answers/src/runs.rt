// Lists of words by their runs.
ghost use Rattle.std.specs.Prelude.{◌≤◌, length};
ghost use Rattle.std.specs.Iterator.{at_most};

use crate::numbers::{arg, word};
use std::io::{self, Write};

// Copies the list whose runs stand at a place of a request, of words that find no place none, and answers where the request goes on.
pub fn take_runs<'a>(args: &[u32], at: usize, words: &'a mut [u16]) -> (&'a mut [u16], usize)
    ensures { length result.0.now ≤ length words.old }
{
    let runs = arg(args, at) as usize % 65536;
    let start = at % 65536 + 1;
    let mut count = 0;
    for run in 0..runs {
        let place = start + run * 2;
        let times = arg(args, place) as usize;
        parts::fill(words, count, times, word(arg(args, place + 1)));
        count = parts::range(words.len(), count, times).end;
    }
    (&mut words[..count], start + runs * 2)
}

// The runs of these words: how many times, and the word.
#[derive(Drop)]
struct Runs<'a>(&'a [u16]);

impl<'a> Iterator for Runs<'a> {
    type Item = (usize, u16);

    ghost remaining = { λ s. at_most (length s.0.now) };

    fn next(&mut self) -> Option<(usize, u16)> {
        let (word, others) = self.0.split_first()?;
        let more = others
            .iter()
            .position(|other| other != word)
            .unwrap_or(others.len());
        self.0 = &others[more..];
        Some((more + 1, *word))
    }
}

// A list by its runs.
pub fn then_runs<W: Write>(to: &mut W, words: &[u16]) -> io::Result<()> {
    write!(to, " {:x}", Runs(words).count())?;
    for (times, word) in Runs(words) {
        write!(to, " {times:x} {word:x}")?;
    }
    Ok(())
}

// Both rows of a request.
pub fn then_rows<W: Write>(to: &mut W, y: &[u16], c: &[u16]) -> io::Result<()> {
    then_runs(to, y)?;
    then_runs(to, c)
}
