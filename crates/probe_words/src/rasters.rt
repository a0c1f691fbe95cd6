// The raster table, 10 to 12.
use sdi::Kind;
use std::io::{self, Write};

pub fn raster_of<W: Write>(to: &mut W, code: u32) -> io::Result<()> {
    match sdi::raster_of(code) {
        Ok(raster) => write!(
            to,
            "0 {:x} {:x} {:x} {:x} {:x}",
            raster.code, raster.layout.total, raster.layout.active, raster.rows, raster.kind as u8
        ),
        Err(refusal) => write!(to, "{:x} 0 0 0 0 0", u8::from(refusal)),
    }
}

fn kind_of(n: u32) -> Kind {
    match n {
        0 => Kind::Progressive,
        _ => Kind::TwoFields,
    }
}

pub fn name<W: Write>(to: &mut W, total: u32, active: u32, rows: u32, kind: u32) -> io::Result<()> {
    let code = sdi::name_raster(total, active, rows, kind_of(kind));
    write!(to, "{:x}", code.unwrap_or(0))
}

pub fn line_facts<W: Write>(to: &mut W, raster: u32, line: u32) -> io::Result<()> {
    match sdi::line_facts(raster, line) {
        Ok(facts) => write!(to, "0 {:x} {:x}", facts.v as u8, facts.f as u8),
        Err(refusal) => write!(to, "{:x} 0 0", u8::from(refusal)),
    }
}
