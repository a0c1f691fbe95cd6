// Timing codes and line numbers, 40 to 43.
use probe_answers::numbers::number_of;
use std::io::{self, Write};

pub fn xyz<W: Write>(to: &mut W, f: bool, v: bool, h: bool) -> io::Result<()> {
    write!(to, "{:x}", sdi::xyz(f, v, h))
}

pub fn read_xyz<W: Write>(to: &mut W, word: u16) -> io::Result<()> {
    match sdi::read_xyz(word) {
        Ok(Some(read)) => write!(
            to,
            "0 1 {:x} {:x} {:x}",
            read.f as u8, read.v as u8, read.h as u8
        ),
        Ok(None) => write!(to, "0 0 0 0 0"),
        Err(refusal) => write!(to, "{:x} 0 0 0 0", u8::from(refusal)),
    }
}

pub fn line_words<W: Write>(to: &mut W, raster: u32, line: u32) -> io::Result<()> {
    match sdi::line_words(raster, line) {
        Ok(made) => write!(to, "0 {:x} {:x}", made.ln0, made.ln1),
        Err(refusal) => write!(to, "{:x} 0 0", u8::from(refusal)),
    }
}

pub fn read_line<W: Write>(to: &mut W, raster: u32, ln0: u16, ln1: u16) -> io::Result<()> {
    let read = sdi::read_line(raster, ln0, ln1);
    write!(
        to,
        "{:x} {:x}",
        number_of(&read),
        read.ok().flatten().unwrap_or(0)
    )
}
