// Rows checked and corrected, 60 and 61.
use crate::carries::then_carry;
use probe_answers::numbers::number_of;
use probe_answers::runs::then_rows;
use sdi::Carry;
use std::io::{self, Write};

pub fn check<W: Write>(
    to: &mut W,
    raster: u32,
    line: u32,
    carry: Carry,
    y: &[u16],
    c: &[u16],
) -> io::Result<()> {
    match sdi::check_row(raster, line, carry, y, c) {
        Ok(judged) => {
            write!(to, "0 {:x}", judged.flags)?;
            then_carry(to, judged.carry)
        }
        Err(refusal) => write!(to, "{:x} 0 0 0 0", u8::from(refusal)),
    }
}

pub fn correct<W: Write>(
    to: &mut W,
    raster: u32,
    line: u32,
    carry: Carry,
    wipe: bool,
    y: &mut [u16],
    c: &mut [u16],
) -> io::Result<()> {
    let corrected = sdi::correct_row(raster, line, carry, wipe, y, c);
    write!(to, "{:x}", number_of(&corrected))?;
    then_carry(to, corrected.ok().flatten())?;
    then_rows(to, y, c)
}
