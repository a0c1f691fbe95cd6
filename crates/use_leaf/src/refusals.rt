// "Each call does its work or returns one number of the refusal table": each function of the leaves that can refuse, called once with
// whatever it is given. A clause for each number: its condition, where none stands before it in the order of the table; `done` where
// there is none; and what becomes of each lent buffer.
ghost use Rattle.std.specs.Prelude.{◌≡◌, true, false, ◌&&◌, [], ◌∷◌, ◌≤◌, ◌<◌, length, drop};
ghost use Rattle.bits.specs.Words.{words10};
ghost use Rattle.refusal.specs.Refusal.{refusal_of};
ghost use Rattle.raster.specs.Table.{raster_ok};
ghost use Rattle.raster.specs.Lines.{line_ok};
ghost use Rattle.crc.specs.Crc.{register_ok};

use align::SyncPlace;
use crc::CrcWords;
use raster::{LineFacts, Raster};
use refusal::Refusal;
use timing::{Fvh, LineWords};

#[tactic(auto, unfolding(raster::specs::Table::looked_up, refusal::specs::Refusal::refusal_numbered))]
pub fn raster_of(code: u32) -> Result<Raster, Refusal>
    ensures four { raster_ok code ≡ false → refusal_of result ≡ 4 }
    ensures done { raster_ok code ≡ true → refusal_of result ≡ 0 }
{
    raster::raster_of(code)
}

#[tactic(auto, unfolding(raster::specs::Lines::line_facts, refusal::specs::Refusal::refusal_numbered))]
pub fn line_facts(raster: u32, line: u32) -> Result<LineFacts, Refusal>
    ensures four { raster_ok raster ≡ false → refusal_of result ≡ 4 }
    ensures five { raster_ok raster ≡ true → line_ok raster line ≡ false → refusal_of result ≡ 5 }
    ensures done { raster_ok raster ≡ true → line_ok raster line ≡ true → refusal_of result ≡ 0 }
{
    raster::line_facts(raster, line)
}

#[tactic(auto, unfolding(crc::specs::Crc::ran))]
pub fn run(register: u32, words: &[u16]) -> Result<u32, Refusal>
    ensures three { (register_ok register && words10 words.now) ≡ false → refusal_of result ≡ 3 }
    ensures done { (register_ok register && words10 words.now) ≡ true → refusal_of result ≡ 0 }
{
    crc::run(register, words)
}

#[tactic(auto, unfolding(crc::specs::Crc::cr_words))]
pub fn words_of(register: u32) -> Result<CrcWords, Refusal>
    ensures three { register_ok register ≡ false → refusal_of result ≡ 3 }
    ensures done { register_ok register ≡ true → refusal_of result ≡ 0 }
{
    crc::words_of(register)
}

#[tactic(auto, using(crate::proofs::Filled::scramble_beyond), unfolding(cable::specs::Words::code_refusal, bits::specs::Words::words10, refusal::specs::Refusal::refusal_numbered))]
pub fn scramble(history: u16, words: &[u16], out: &mut [u16]) -> Result<u16, Refusal>
    ensures three { words10 (history ∷ words.now) ≡ false → refusal_of result ≡ 3 }
    ensures one { words10 (history ∷ words.now) ≡ true → length out.old < length words.now → refusal_of result ≡ 1 }
    ensures done { words10 (history ∷ words.now) ≡ true → length words.now ≤ length out.old → refusal_of result ≡ 0 }
    ensures unchanged { 0 < refusal_of result → out.new ≡ out.old }
    ensures beyond { drop (length words.now) out.new ≡ drop (length words.now) out.old }
{
    cable::scramble(history, words, out)
}

#[tactic(auto, using(crate::proofs::Filled::unscramble_beyond), unfolding(cable::specs::Words::code_refusal, bits::specs::Words::words10, refusal::specs::Refusal::refusal_numbered))]
pub fn unscramble(history: u16, words: &[u16], out: &mut [u16]) -> Result<u16, Refusal>
    ensures three { words10 (history ∷ words.now) ≡ false → refusal_of result ≡ 3 }
    ensures one { words10 (history ∷ words.now) ≡ true → length out.old < length words.now → refusal_of result ≡ 1 }
    ensures done { words10 (history ∷ words.now) ≡ true → length words.now ≤ length out.old → refusal_of result ≡ 0 }
    ensures unchanged { 0 < refusal_of result → out.new ≡ out.old }
    ensures beyond { drop (length words.now) out.new ≡ drop (length words.now) out.old }
{
    cable::unscramble(history, words, out)
}

pub fn find_sync(words: &[u16]) -> Result<Option<SyncPlace>, Refusal>
    ensures three { words10 words.now ≡ false → refusal_of result ≡ 3 }
    ensures done { words10 words.now ≡ true → refusal_of result ≡ 0 }
{
    align::find_sync(words)
}

pub fn read_xyz(word: u16) -> Result<Option<Fvh>, Refusal>
    ensures three { 0x3ff < word → refusal_of result ≡ 3 }
    ensures done { word ≤ 0x3ff → refusal_of result ≡ 0 }
{
    timing::read_xyz(word)
}

#[tactic(auto, unfolding(timing::specs::Line::line_words, refusal::specs::Refusal::refusal_numbered))]
pub fn line_words(raster: u32, line: u32) -> Result<LineWords, Refusal>
    ensures four { raster_ok raster ≡ false → refusal_of result ≡ 4 }
    ensures five { raster_ok raster ≡ true → line_ok raster line ≡ false → refusal_of result ≡ 5 }
    ensures done { raster_ok raster ≡ true → line_ok raster line ≡ true → refusal_of result ≡ 0 }
{
    timing::line_words(raster, line)
}

#[tactic(auto, unfolding(timing::specs::Line::line_read, bits::specs::Words::words10, refusal::specs::Refusal::refusal_numbered))]
pub fn read_line(raster: u32, ln0: u16, ln1: u16) -> Result<Option<u32>, Refusal>
    ensures four { raster_ok raster ≡ false → refusal_of result ≡ 4 }
    ensures three { raster_ok raster ≡ true → words10 (ln0 ∷ ln1 ∷ []) ≡ false → refusal_of result ≡ 3 }
    ensures done { raster_ok raster ≡ true → words10 (ln0 ∷ ln1 ∷ []) ≡ true → refusal_of result ≡ 0 }
{
    timing::read_line(raster, ln0, ln1)
}
