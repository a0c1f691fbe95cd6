// What raster and line say of a row, and the refusal of rows that are read.
#![tactic(auto)]

ghost use Rattle.std.specs.Prelude.{◌≡◌};
ghost use Rattle.refusal.specs.Refusal.{result_of};
ghost use Rattle.plan.specs.Plan.{planned};
ghost use Rattle.plan.specs.Refusal.{row_refusal};

use refusal::Refusal;

// Where the parts of a row lie: T, the numbers of line number and CRC words, the place of the CRC, the place and length of the
// blanking, the places of SAV and active words, A.
#[derive(Clone, Copy)]
pub struct Places {
    pub total: usize,
    pub lines: usize,
    pub crc: usize,
    pub checks: usize,
    pub blank: usize,
    pub blanks: usize,
    pub sav: usize,
    pub active: usize,
    pub count: usize,
}

// The XYZ words of EAV and SAV, and the line number words.
#[derive(Clone, Copy)]
pub struct Codes {
    pub eav: u16,
    pub sav: u16,
    pub ln0: u16,
    pub ln1: u16,
}

#[derive(Clone, Copy)]
pub struct Plan {
    pub v: bool,
    pub places: Places,
    pub codes: Codes,
}

// The plan of a line of a raster; 4, 5.
pub fn plan_of(raster: u32, line: u32) -> Result<Plan, Refusal>
    ensures { result ≡ planned raster line }
{
    let facts = raster::line_facts(raster, line)?;
    let words = timing::line_words(raster, line)?;
    let layout = raster::raster_of(raster)?.layout;
    let crc = 4 + layout.lines;
    let blank = crc + layout.checks;
    let active = layout.total - layout.active;
    let sav = active - 4;
    let places = Places {
        total: layout.total,
        lines: layout.lines,
        crc,
        checks: layout.checks,
        blank,
        blanks: sav - blank,
        sav,
        active,
        count: layout.active,
    };
    let codes = Codes {
        eav: timing::xyz(facts.f, facts.v, true),
        sav: timing::xyz(facts.f, facts.v, false),
        ln0: words.ln0,
        ln1: words.ln1,
    };
    let v = facts.v;
    Ok(Plan { v, places, codes })
}

// The refusal of a row's two channels; 4, 5, 2, 3.
pub fn row_refusal(raster: u32, line: u32, y: &[u16], c: &[u16]) -> Result<(), Refusal>
    ensures { result ≡ result_of (row_refusal raster line y.now c.now) tt }
{
    let total = plan_of(raster, line)?.places.total;
    if y.len() != total || c.len() != total {
        return Err(Refusal::WrongLength);
    }
    if !bits::all_words(y) || !bits::all_words(c) {
        return Err(Refusal::TooHigh);
    }
    Ok(())
}
