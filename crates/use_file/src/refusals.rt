// "Each call does its work or returns one number of the refusal table": each function that reads a bench file and can refuse, called
// once with whatever it is given. A clause for each condition, where none stands before it in the order of the table; `done` where there
// is none; and what becomes of each lent buffer.
ghost use Rattle.std.specs.Prelude.{◌≡◌, true, false, ◌≤◌, ◌<◌, Err, drop};
ghost use Rattle.refusal.specs.declared.Refusal.TheVariants.{BadFile, NoRaster, TooHigh};
ghost use Rattle.refusal.specs.Refusal.{refusal_of};
ghost use Rattle.raster.specs.Table.{raster_ok};
ghost use Rattle.reader.specs.declared.Stage.TheVariants.{TagCount, TagBytes, OptionsCount, WipeByte, HighByte};
ghost use Rattle.reader.specs.Reader.{counted, is_cut, options_size_ok, printable, stopped, tag_size_ok, wipe_ok, word_of, word_ok};
ghost use Rattle.desk.specs.Desk.{bad_file, longest, nothing};
ghost use Rattle.law_refusal.specs.Files.{lawful, ready, roomy};

use desk::{Desk, Outcome, Taken};
use reader::{Read, Reader};
use refusal::Refusal;

// A byte, by its stage; a count is there with its fourth byte. After a refusal the reader reads no more.
#[tactic(auto, using(crate::proofs::Bytes::stops))]
pub fn read(reader: &mut Reader, byte: u8) -> Result<Read, Refusal>
    ensures tagsize { reader.old.stage ≡ TagCount → 3 ≤ reader.old.count.seen → tag_size_ok (counted byte reader.old.count) ≡ false → result ≡ Err BadFile }
    ensures tagbyte { reader.old.stage ≡ TagBytes → printable byte ≡ false → result ≡ Err BadFile }
    ensures optionssize { reader.old.stage ≡ OptionsCount → 3 ≤ reader.old.count.seen → options_size_ok (counted byte reader.old.count) ≡ false → result ≡ Err BadFile }
    ensures wipe { reader.old.stage ≡ WipeByte → wipe_ok byte ≡ false → result ≡ Err BadFile }
    ensures raster { reader.old.stage ≡ WipeByte → wipe_ok byte ≡ true → raster_ok reader.old.options.raster ≡ false → result ≡ Err NoRaster }
    ensures word { reader.old.stage ≡ HighByte → word_ok (word_of reader.old.low byte) ≡ false → result ≡ Err TooHigh }
    ensures done { lawful reader.old.stage reader.old byte ≡ true → refusal_of result ≡ 0 }
    ensures stops { 0 < refusal_of result → reader.new ≡ stopped }
{
    reader.read(byte)
}

// Bytes as they arrive; 7, 1. Beyond the longest row nothing is written.
#[tactic(auto, using(law_refusal::proofs::Files::take_refusal_by, crate::proofs::Beyond::y_beyond, crate::proofs::Beyond::c_beyond), unfolding(desk::specs::Desk::taken, desk::specs::Desk::taken_y, desk::specs::Desk::taken_c, refusal::specs::Refusal::refusal_numbered))]
pub fn take(desk: Desk, bytes: &[u8], y: &mut [u16], c: &mut [u16]) -> Result<Taken, Refusal>
    ensures seven { ready desk ≡ false → refusal_of result ≡ 7 }
    ensures one { ready desk ≡ true → roomy y.old c.old ≡ false → refusal_of result ≡ 1 }
    ensures done { ready desk ≡ true → roomy y.old c.old ≡ true → refusal_of result ≡ 0 }
    ensures yrow { 0 < refusal_of result → y.new ≡ y.old }
    ensures crow { 0 < refusal_of result → c.new ≡ c.old }
    ensures ybeyond { drop longest y.new ≡ drop longest y.old }
    ensures cbeyond { drop longest c.new ≡ drop longest c.old }
{
    desk.take(bytes, y, c)
}

// The end of the input.
#[tactic(auto, unfolding(desk::specs::Desk::finished))]
pub fn finish(desk: Desk) -> Outcome
    ensures nine { is_cut desk.reader ≡ true → result ≡ bad_file 9 }
    ensures done { is_cut desk.reader ≡ false → result ≡ nothing }
{
    desk.finish()
}
