// Prints crc's table by the digits of the index, sixteen entries to a row: the sheet of docs/CRC-SHEET.md. Proved safe, no more.
#![tactic(auto)]

use crc::sheet::STEPS;
use std::io::{self, Write};

// A row. It starts with the digits of its entries' indexes but the last, which is the column's, and every sixteenth row has the columns' headings above it.
fn row<W: Write>(to: &mut W, index: usize, entries: &[u32]) -> io::Result<()> {
    if index % 16 == 0 {
        writeln!(
            to,
            "       0     1     2     3     4     5     6     7     8     9     A     B     C     D     E     F"
        )?;
    }
    write!(to, "{index:02X}")?;
    for entry in entries {
        write!(to, " {entry:05X}")?;
    }
    writeln!(to)
}

fn main(rt: HostRuntime) -> io::Result<()> {
    let mut to = rt.stdout();
    for (index, entries) in STEPS.chunks(16).enumerate() {
        row(&mut to, index, entries)?;
    }
    Ok(())
}
