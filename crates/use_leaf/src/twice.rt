// Any two answers that a contract allows are equal, of the calls on words: each is called twice on equal arguments, and equal answers and
// equal buffers follow from its contract alone.
ghost use Rattle.std.specs.Prelude.{◌≡◌};

use align::SyncPlace;
use crc::CrcWords;
use raster::{Kind, LineFacts, Raster};
use refusal::Refusal;
use timing::{Fvh, LineWords};

// The answers of two calls.
type Twice<A> = (A, A);

pub fn raster_of(code: u32) -> Twice<Result<Raster, Refusal>>
    ensures { result.0 ≡ result.1 }
{
    (raster::raster_of(code), raster::raster_of(code))
}

pub fn name(total: u32, active: u32, rows: u32, kind: Kind) -> Twice<Option<u32>>
    ensures { result.0 ≡ result.1 }
{
    (
        raster::name(total, active, rows, kind),
        raster::name(total, active, rows, kind),
    )
}

pub fn line_facts(raster: u32, line: u32) -> Twice<Result<LineFacts, Refusal>>
    ensures { result.0 ≡ result.1 }
{
    (
        raster::line_facts(raster, line),
        raster::line_facts(raster, line),
    )
}

pub fn run(register: u32, words: &[u16]) -> Twice<Result<u32, Refusal>>
    ensures { result.0 ≡ result.1 }
{
    (crc::run(register, words), crc::run(register, words))
}

pub fn words_of(register: u32) -> Twice<Result<CrcWords, Refusal>>
    ensures { result.0 ≡ result.1 }
{
    (crc::words_of(register), crc::words_of(register))
}

pub fn find_sync(words: &[u16]) -> Twice<Result<Option<SyncPlace>, Refusal>>
    ensures { result.0 ≡ result.1 }
{
    (align::find_sync(words), align::find_sync(words))
}

pub fn xyz(f: bool, v: bool, h: bool) -> Twice<u16>
    ensures { result.0 ≡ result.1 }
{
    (timing::xyz(f, v, h), timing::xyz(f, v, h))
}

pub fn read_xyz(word: u16) -> Twice<Result<Option<Fvh>, Refusal>>
    ensures { result.0 ≡ result.1 }
{
    (timing::read_xyz(word), timing::read_xyz(word))
}

pub fn line_words(raster: u32, line: u32) -> Twice<Result<LineWords, Refusal>>
    ensures { result.0 ≡ result.1 }
{
    (
        timing::line_words(raster, line),
        timing::line_words(raster, line),
    )
}

pub fn read_line(raster: u32, ln0: u16, ln1: u16) -> Twice<Result<Option<u32>, Refusal>>
    ensures { result.0 ≡ result.1 }
{
    (
        timing::read_line(raster, ln0, ln1),
        timing::read_line(raster, ln0, ln1),
    )
}

pub fn scramble(
    history: u16,
    words: &[u16],
    a: &mut [u16],
    b: &mut [u16],
) -> Twice<Result<u16, Refusal>>
    ensures { a.old ≡ b.old → (result.0 ≡ result.1) × (a.new ≡ b.new) }
{
    (
        cable::scramble(history, words, a),
        cable::scramble(history, words, b),
    )
}

pub fn unscramble(
    history: u16,
    words: &[u16],
    a: &mut [u16],
    b: &mut [u16],
) -> Twice<Result<u16, Refusal>>
    ensures { a.old ≡ b.old → (result.0 ≡ result.1) × (a.new ≡ b.new) }
{
    (
        cable::unscramble(history, words, a),
        cable::unscramble(history, words, b),
    )
}
