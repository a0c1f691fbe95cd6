// The eleven rasters: their rows of the table, the layout of a row, V and F of a line.
#![tactic(auto)]

ghost use Rattle.std.specs.Prelude.{◌≡◌, ◌<◌, get_or};
ghost use Rattle.raster.specs.Table.{fits, highest, looked_up, meant, named, no_entry, table};
ghost use Rattle.raster.specs.Lines.{between, line_facts, v_of, f_of};

use refusal::Refusal;

// The highest code; the lowest is 1, and 0 stands for one of them.
pub const HIGHEST: u32 = 11;

#[derive(Clone, Copy, PartialEq, Eq)]
pub enum Kind {
    Progressive,
    TwoFields,
}

// How a row is laid out, as data: the unit of alignment in bits, T, A, and how many line number and CRC words there are.
#[derive(Clone, Copy)]
pub struct Layout {
    pub unit: u32,
    pub total: usize,
    pub active: usize,
    pub lines: usize,
    pub checks: usize,
}

#[derive(Clone, Copy)]
pub struct Raster {
    pub code: u32,
    pub layout: Layout,
    pub rows: u32,
    pub kind: Kind,
}

// V and F of a line.
#[derive(Clone, Copy)]
pub struct LineFacts {
    pub v: bool,
    pub f: bool,
}

// A row of the table.
#[derive(Clone, Copy)]
struct Entry {
    pub total: usize,
    pub active: usize,
    pub rows: u32,
    pub kind: Kind,
}

// Codes 1 to the highest.
const TABLE: [Entry; HIGHEST as usize] = [
    Entry {
        total: 1650,
        active: 1280,
        rows: 750,
        kind: Kind::Progressive,
    },
    Entry {
        total: 1980,
        active: 1280,
        rows: 750,
        kind: Kind::Progressive,
    },
    Entry {
        total: 3300,
        active: 1280,
        rows: 750,
        kind: Kind::Progressive,
    },
    Entry {
        total: 3960,
        active: 1280,
        rows: 750,
        kind: Kind::Progressive,
    },
    Entry {
        total: 4125,
        active: 1280,
        rows: 750,
        kind: Kind::Progressive,
    },
    Entry {
        total: 2200,
        active: 1920,
        rows: 1125,
        kind: Kind::TwoFields,
    },
    Entry {
        total: 2640,
        active: 1920,
        rows: 1125,
        kind: Kind::TwoFields,
    },
    Entry {
        total: 2750,
        active: 1920,
        rows: 1125,
        kind: Kind::TwoFields,
    },
    Entry {
        total: 2200,
        active: 1920,
        rows: 1125,
        kind: Kind::Progressive,
    },
    Entry {
        total: 2640,
        active: 1920,
        rows: 1125,
        kind: Kind::Progressive,
    },
    Entry {
        total: 2750,
        active: 1920,
        rows: 1125,
        kind: Kind::Progressive,
    },
];

// The row at a place of the table.
fn entry_at(place: usize) -> Entry
    requires { place < highest }
    ensures { result ≡ get_or table place no_entry }
{
    let entry = TABLE[place];
    entry
}

// 0 stands for 7.
fn meant_code(code: u32) -> u32
    ensures { result ≡ meant code }
{
    if code == 0 {
        return 7;
    }
    code
}

// The raster of a code, 0 being 7; 4.
pub fn raster_of(code: u32) -> Result<Raster, Refusal>
    ensures { result ≡ looked_up code }
{
    if HIGHEST < code {
        return Err(Refusal::NoRaster);
    }
    let meant = meant_code(code);
    let entry = entry_at((meant - 1) as usize);
    let layout = Layout {
        unit: 20,
        total: entry.total,
        active: entry.active,
        lines: 2,
        checks: 2,
    };
    Ok(Raster {
        code: meant,
        layout,
        rows: entry.rows,
        kind: entry.kind,
    })
}

// Whether a row of the table has these values.
fn fits_entry(total: u32, active: u32, rows: u32, kind: Kind, entry: Entry) -> bool
    ensures { result ≡ fits total active rows kind entry }
{
    entry.total == total as usize
        && entry.active == active as usize
        && entry.rows == rows
        && entry.kind == kind
}

// The code whose row of the table has these values, if any has.
pub fn name(total: u32, active: u32, rows: u32, kind: Kind) -> Option<u32>
    ensures { result ≡ named total active rows kind }
{
    for code in 1..=HIGHEST {
        let entry = entry_at((code - 1) as usize);
        if fits_entry(total, active, rows, kind, entry) {
            return Some(code);
        }
    }
    None
}

// Whether a line is one of the lines first to last.
fn inside(first: u32, last: u32, line: u32) -> bool
    ensures { result ≡ between first last line }
{
    (first..=last).contains(&line)
}

// V of a line of a raster with these rows and this kind.
fn v_of(rows: u32, kind: Kind, line: u32) -> bool
    ensures { result ≡ v_of rows kind line }
{
    match kind {
        Kind::TwoFields => !(inside(21, 560, line) || inside(584, 1123, line)),
        Kind::Progressive if rows == 750 => !inside(26, 745, line),
        Kind::Progressive => !inside(42, 1121, line),
    }
}

// F of a line of a raster of this kind.
fn f_of(kind: Kind, line: u32) -> bool
    ensures { result ≡ f_of kind line }
{
    kind == Kind::TwoFields && inside(564, 1125, line)
}

// V and F of a line; 4, 5.
pub fn line_facts(raster: u32, line: u32) -> Result<LineFacts, Refusal>
    ensures { result ≡ line_facts raster line }
{
    let found = raster_of(raster)?;
    if !inside(1, found.rows, line) {
        return Err(Refusal::NoLine);
    }
    Ok(LineFacts {
        v: v_of(found.rows, found.kind, line),
        f: f_of(found.kind, line),
    })
}
