// The face of the library: the calls that the scope names, in its order, and their types. A call takes any words, lengths,
// numbers and choices; it does its work, or answers an `Err` of one row of the refusal table (docs/REFUSALS.md) and changes nothing
// that it was lent. Its numbers stand here in the order in which they are given. Another program needs no name but these.
#![tactic(auto)]

// Types; why a call refuses: as a `u8`, its number in the table.
pub use refusal::Refusal;

// ---- cable bits

// Words scrambled for the cable after a history; the next history. Refuses 3, 1.
pub use cable::scramble;

// Words of the cable unscrambled after a history; the next history. Refuses 3, 1.
pub use cable::unscramble;

// The place of the first sync in unscrambled words, or `None`. Refuses 3.
pub use align::find_sync;

// Types.
pub use align::SyncPlace;

// ---- timing codes, line numbers, CRC

// The XYZ word of F, V and H. Refuses nothing.
pub use timing::xyz;

// F, V and H of an XYZ word, or `None` where it is not exact. Refuses 3.
pub use timing::read_xyz;

// LN0 and LN1 of a line. Refuses 4, 5.
pub use timing::line_words;

// The line of LN0 and LN1, or `None` where they are not exact or of no line of the raster. Refuses 4, 3.
pub use timing::read_line;

// The CRC register after words. Refuses 3.
pub use crc::run as crc_after;

// CR0 and CR1 of a register. Refuses 3.
pub use crc::words_of as crc_words;

// Types.
pub use crc::CrcWords;
pub use timing::{Fvh, LineWords};

// ---- rasters

// The row of the raster table for a code, 0 standing for 7. Refuses 4.
pub use raster::raster_of;

// The code of the raster with these measured counts, or `None`. Refuses nothing.
pub use raster::name as name_raster;

// V and F of a line. Refuses 4, 5.
pub use raster::line_facts;

// Types.
pub use raster::{Kind, Layout, LineFacts, Raster};

// ---- ancillary packets

// A packet built into an output; how many words it has. Refuses 3, 6, 1.
pub use packet::build as build_packet;

// The first whole packet of a row with these identifiers, as a part of its channel. Refuses 4, 5, 2, 3, with an empty part.
pub use finding::find as find_packet;

// Whether `find_packet` refuses the same arguments, and why. Refuses 4, 5, 2, 3.
pub use finding::find_refusal;

// All whole packets of a channel of a row, end to end, into an output; how many words they have. Refuses 4, 5, 2, 3, 1.
pub use finding::extract as extract_packets;

// Types.
pub use finding::Channel;

// ---- rows

// The flags of a row, and the carry for the next. Refuses 4, 5, 2, 3.
pub use row::check as check_row;

// A row made right where it lies: checksums, timing codes and line numbers, CRC; the carry for the next. Refuses 4, 5, 2, 3.
pub use repair::correct as correct_row;

// A row built from active words and words for the blanking; the carry for the next. Refuses 4, 5, 2, 3, 1.
pub use compose::build as build_row;

// Types; the carry out of the row before is `None` where there is no row before.
pub use row::{Carry, Judged, Registers};

// ---- a module session

// The session of a module.
// - fresh: a closed session, as it is before the first module and after each. Refuses nothing.
// - begin: the session, opened for a raster. Refuses 7, 4.
// - feed: the session after words of the cable, as they come; the row buffers are lent. Refuses 7, 3, 1.
// - end: raster, counts and verdict, and a closed session. Refuses 7.
pub use session::Session;

// Types; what a session holds has ranges, in docs/SESSION.md.
pub use judging::Track;
pub use recogniser::{Place, Sight, Window};
pub use session::Ended;
pub use stepper::State;
pub use tally::{Counts, Verdict};

// ---- a bench file

// A desk takes the bytes of a bench file as they arrive, and runs a session per job.
// - fresh: a desk before the first byte. Refuses nothing.
// - take: takes bytes up to the end of a job, or all; the row buffers are lent. Refuses 7, 1.
// - finish: what the end of the input means. Refuses nothing.
pub use desk::Desk;

// The line that is printed of an outcome. Refuses nothing.
pub use label::label_of;

// Types.
pub use desk::{Job, Outcome, Taken};
pub use label::Label;
pub use reader::Tag;
