// Judging: what an event means for the row whose words are lent. It writes none of them.
#![tactic(auto)]

ghost use Rattle.std.specs.Prelude.{◌≡◌, get_or};
ghost use Rattle.judging.specs.Happening.{completed, dropped, happened, line_after, line_of};

use recogniser::Event;
use row::Carry;

// What is expected of the next row: its line, 0 where none is known, and the carry that the judged row before it left.
#[derive(Clone, Copy)]
pub struct Track {
    pub line: u32,
    pub carry: Carry,
}

impl Track {
    // Nothing is known of the next row, and there was none before it.
    pub const NONE: Track = Track {
        line: 0,
        carry: None,
    };
}

// What happens at a bit: nothing; a row judged (its line, its flags, whether its CRC could be judged); a row without a line number;
// a row dropped by an EAV at another distance, by four pairs that are no EAV, by a sync at another alignment.
#[derive(Clone, Copy)]
pub enum Happening {
    Quiet,
    RowJudged(u32, u16, bool),
    Unnumbered,
    DroppedEarly,
    DroppedLate,
    DroppedAstray,
}

#[derive(Clone, Copy)]
pub struct Happened {
    pub happening: Happening,
    pub track: Track,
}

// A happening after which no line is known and there is no row before.
fn drop_row(happening: Happening) -> Happened
    ensures { result ≡ dropped happening }
{
    Happened {
        happening,
        track: Track::NONE,
    }
}

// The word at a place, 0 where there is none.
fn word_at(words: &[u16], at: usize) -> u16
    ensures { result ≡ get_or words.now at 0 }
{
    words.get(at).copied().unwrap_or(0)
}

// The line of a whole row: the expected one, or where none is known the one that its Y words say; 0 where these are not exact.
fn line_of(raster: u32, expected: u32, y: &[u16]) -> u32
    ensures { result ≡ line_of raster expected y.now }
{
    if expected != 0 {
        return expected;
    }
    match timing::read_line(raster, word_at(y, 4), word_at(y, 5)) {
        Ok(Some(line)) => line,
        _ => 0,
    }
}

// The line after a line.
fn line_after(raster: u32, line: u32) -> u32
    ensures { result ≡ line_after raster line }
{
    match raster::raster_of(raster) {
        Ok(found) if line < found.rows => line + 1,
        _ => 1,
    }
}

// A whole row of this line, or of none.
fn complete(raster: u32, line: u32, carry: Carry, y: &[u16], c: &[u16]) -> Happened
    ensures { result ≡ completed raster line carry y.now c.now }
{
    if line == 0 {
        return drop_row(Happening::Unnumbered);
    }
    let judged = row::judge(raster, line, carry, y, c);
    Happened {
        happening: Happening::RowJudged(line, judged.flags, carry.is_some()),
        track: Track {
            line: line_after(raster, line),
            carry: judged.carry,
        },
    }
}

// What an event means for a row of these T words in each channel.
#[tactic(auto, unfolding(crate::specs::Happening::happened))]
pub fn happen(event: Event, raster: u32, track: Track, y: &[u16], c: &[u16]) -> Happened
    ensures { result ≡ happened event raster track y.now c.now }
{
    match event {
        Event::Outside | Event::Within | Event::Pair | Event::Opens => Happened {
            happening: Happening::Quiet,
            track,
        },
        Event::Whole => complete(raster, line_of(raster, track.line, y), track.carry, y, c),
        Event::Early => drop_row(Happening::DroppedEarly),
        Event::Late => drop_row(Happening::DroppedLate),
        Event::Astray => drop_row(Happening::DroppedAstray),
    }
}
