// Rows built, 62.
use crate::carries::{carry_at, then_carry};
use probe_answers::numbers::{arg, number_of};
use probe_answers::runs::{take_runs, then_rows};
use std::io::{self, Write};

pub fn build<W: Write>(to: &mut W, args: &[u32]) -> io::Result<()> {
    let mut y_active = [0u16; 4000];
    let mut c_active = [0u16; 4000];
    let mut y_blanking = [0u16; 4000];
    let mut c_blanking = [0u16; 4000];
    let mut y = [0u16; 20000];
    let mut c = [0u16; 20000];
    let (y_active, at) = take_runs(args, 6, &mut y_active);
    let (c_active, at) = take_runs(args, at, &mut c_active);
    let (y_blanking, at) = take_runs(args, at, &mut y_blanking);
    let (c_blanking, at) = take_runs(args, at, &mut c_blanking);
    let (y, at) = take_runs(args, at, &mut y);
    let (c, _) = take_runs(args, at, &mut c);
    let built = sdi::build_row(
        arg(args, 1),
        arg(args, 2),
        carry_at(args, 3),
        y_active,
        c_active,
        y_blanking,
        c_blanking,
        y,
        c,
    );
    write!(to, "{:x}", number_of(&built))?;
    then_carry(to, built.ok().flatten())?;
    then_rows(to, y, c)
}
