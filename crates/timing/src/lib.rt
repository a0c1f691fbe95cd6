// Timing codes and line numbers: words built and read.
#![tactic(auto)]

ghost use Rattle.std.specs.Prelude.{◌≡◌, true};
ghost use Rattle.bits.specs.Choice.{unless_zero};
ghost use Rattle.raster.specs.Table.{raster_ok};
ghost use Rattle.timing.specs.Xyz.{xyz_of, read_xyz, told, reading_of};
ghost use Rattle.timing.specs.Line.{line_words, line_from, line_read};

use refusal::Refusal;

// F, V and H of a timing code.
#[derive(Clone, Copy)]
pub struct Fvh {
    pub f: bool,
    pub v: bool,
    pub h: bool,
}

#[derive(Clone, Copy, PartialEq, Eq)]
pub struct LineWords {
    pub ln0: u16,
    pub ln1: u16,
}

// The XYZ word of F, V and H.
pub fn xyz(f: bool, v: bool, h: bool) -> u16
    ensures { result ≡ xyz_of f v h }
{
    let k = f as u32 * 4 + v as u32 * 2 + h as u32;
    let vh = u32::count_ones(k & 3) % 2;
    let fh = u32::count_ones(k & 5) % 2;
    let fv = u32::count_ones(k & 6) % 2;
    let fvh = u32::count_ones(k & 7) % 2;
    (512 + k * 64 + vh * 32 + fh * 16 + fv * 8 + fvh * 4) as u16
}

// F, V and H of an XYZ word, or none where it is not exact; 3.
pub fn read_xyz(word: u16) -> Result<Option<Fvh>, Refusal>
    ensures answer { result ≡ read_xyz word }
    ensures means { told result ≡ reading_of word }
{
    if word > 0x3ff {
        return Err(Refusal::TooHigh);
    }
    let f = word / 256 % 2 == 1;
    let v = word / 128 % 2 == 1;
    let h = word / 64 % 2 == 1;
    if word == xyz(f, v, h) {
        return Ok(Some(Fvh { f, v, h }));
    }
    Ok(None)
}

// LN0 and LN1 of a line; 4, 5.
pub fn line_words(raster: u32, line: u32) -> Result<LineWords, Refusal>
    ensures { result ≡ line_words raster line }
{
    raster::line_facts(raster, line)?;
    let ln0 = bits::nine((line % 128 * 4) as u16);
    let ln1 = bits::nine((line / 128 % 16 * 4) as u16);
    Ok(LineWords { ln0, ln1 })
}

// The line whose words are LN0 and LN1, if there is one.
fn line_from(raster: u32, ln0: u16, ln1: u16) -> Option<u32>
    requires { raster_ok raster ≡ true }
    ensures { result ≡ unless_zero (line_from raster ln0 ln1) }
{
    let line = (ln0 / 4 % 128) as u32 + (ln1 / 4 % 16) as u32 * 128;
    match line_words(raster, line) {
        Ok(built) if built == (LineWords { ln0, ln1 }) => Some(line),
        _ => None,
    }
}

// The line of LN0 and LN1, or none; 4, 3.
pub fn read_line(raster: u32, ln0: u16, ln1: u16) -> Result<Option<u32>, Refusal>
    ensures { result ≡ line_read raster ln0 ln1 }
{
    raster::raster_of(raster)?;
    if ln0 > 0x3ff || ln1 > 0x3ff {
        return Err(Refusal::TooHigh);
    }
    Ok(line_from(raster, ln0, ln1))
}
