// Carries: read from a request, printed into an answer.
use probe_answers::numbers::arg;
use sdi::{Carry, Registers};
use std::io::{self, Write};

// The carry at a place of a request.
pub fn carry_at(args: &[u32], at: usize) -> Carry {
    if arg(args, at) == 0 {
        return None;
    }
    Some(Registers {
        y: arg(args, at % 65536 + 1),
        c: arg(args, at % 65536 + 2),
    })
}

// A carry, after the first number of a line.
pub fn then_carry<W: Write>(to: &mut W, carry: Carry) -> io::Result<()> {
    match carry {
        None => write!(to, " 0 0 0"),
        Some(registers) => write!(to, " 1 {:x} {:x}", registers.y, registers.c),
    }
}
