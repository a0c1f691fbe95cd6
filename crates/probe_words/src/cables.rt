// Cable words, 30 to 32.
use crate::lists::{take_words, then_list};
use probe_answers::numbers::{arg, number_of, word};
use std::io::{self, Write};

// Scrambling, 30, and unscrambling, 31.
pub fn coded<W: Write>(to: &mut W, args: &[u32]) -> io::Result<()> {
    let mut words = [0u16; 20000];
    let mut out = [0u16; 20000];
    let words = take_words(args, 2, &mut words);
    let out = take_words(args, words.len() + 3, &mut out);
    let history = word(arg(args, 1));
    let coded = if arg(args, 0) == 0x30 {
        sdi::scramble(history, words, out)
    } else {
        sdi::unscramble(history, words, out)
    };
    write!(to, "{:x} {:x}", number_of(&coded), coded.unwrap_or(0))?;
    then_list(to, out)
}

pub fn find_sync<W: Write>(to: &mut W, args: &[u32]) -> io::Result<()> {
    let mut words = [0u16; 20000];
    match sdi::find_sync(take_words(args, 1, &mut words)) {
        Ok(Some(place)) => write!(to, "0 1 {:x}", place.word % 65536 * 10 + place.bit % 10),
        Ok(None) => write!(to, "0 0 0"),
        Err(refusal) => write!(to, "{:x} 0 0", u8::from(refusal)),
    }
}
