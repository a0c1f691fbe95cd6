// CRC registers, 21 and 22.
use crate::lists::take_words;
use probe_answers::numbers::{arg, number_of};
use std::io::{self, Write};

pub fn run<W: Write>(to: &mut W, args: &[u32]) -> io::Result<()> {
    let mut words = [0u16; 20000];
    let ran = sdi::crc_after(arg(args, 1), take_words(args, 2, &mut words));
    write!(to, "{:x} {:x}", number_of(&ran), ran.unwrap_or(0))
}

pub fn words_of<W: Write>(to: &mut W, register: u32) -> io::Result<()> {
    match sdi::crc_words(register) {
        Ok(made) => write!(to, "0 {:x} {:x}", made.cr0, made.cr1),
        Err(refusal) => write!(to, "{:x} 0 0", u8::from(refusal)),
    }
}
