// Lists of words, which their count precedes.
ghost use Rattle.std.specs.Prelude.{◌≤◌, length};

use probe_answers::numbers::{arg, word};
use std::io::{self, Write};

// Copies the list at a place of a request; of words that find no place, none.
pub fn take_words<'a>(args: &[u32], at: usize, words: &'a mut [u16]) -> &'a mut [u16]
    ensures { length result.now ≤ length words.old }
{
    let count = words.len().min(arg(args, at) as usize);
    let taken = &mut words[..count];
    for (place, number) in taken.iter_mut().zip(args.iter().skip(at).skip(1)) {
        *place = word(*number);
    }
    taken
}

// A list, after the first number of a line.
pub fn then_list<W: Write>(to: &mut W, words: &[u16]) -> io::Result<()> {
    write!(to, " {:x}", words.len())?;
    for word in words {
        write!(to, " {word:x}")?;
    }
    Ok(())
}
