// Lists of bytes.
ghost use Rattle.std.specs.Prelude.{◌≤◌, length};

use probe_answers::numbers::{arg, byte};
use std::io::{self, Write};

// Copies the list of bytes at a place, which its count precedes; of bytes that find no place, none.
pub fn take_bytes<'a>(args: &[u32], at: usize, bytes: &'a mut [u8]) -> &'a mut [u8]
    ensures { length result.now ≤ length bytes.old }
{
    let count = bytes.len().min(arg(args, at) as usize);
    let taken = &mut bytes[..count];
    for (place, number) in taken.iter_mut().zip(args.iter().skip(at).skip(1)) {
        *place = byte(*number);
    }
    taken
}

// The bytes from a place on, as many as asked or as there are.
pub fn bytes_from<'a>(bytes: &'a [u8], from: usize, count: usize) -> &'a [u8] {
    &bytes[parts::range(bytes.len(), from, count)]
}

// So many bytes, or as many as there are, after the first number of a line.
pub fn then_bytes<W: Write>(to: &mut W, bytes: &[u8], count: usize) -> io::Result<()> {
    for byte in bytes.iter().take(count) {
        write!(to, " {byte:x}")?;
    }
    Ok(())
}
