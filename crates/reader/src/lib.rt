// A bench file, a byte at a time: tag, options, words, each section after its count. Nothing is sized by a count.
#![tactic(auto)]

ghost use Rattle.std.specs.Prelude.{◌≡◌, ◌<◌, Some, None, Ok, if◌then◌else◌, ltb};
ghost use Rattle.reader.specs.Reader.{brings, chooses, counted, ends, fresh, goes_on, is_cut, left_by, of_high_byte, of_low_byte, of_options_count, of_raster_byte, of_tag_byte, of_tag_count, of_wipe_byte, of_word_count, read_of, stopped, tagged, tag_with, waits};

use refusal::Refusal;

// What the next byte is of.
#[derive(Clone, Copy)]
pub enum Stage {
    TagCount,
    TagBytes,
    OptionsCount,
    RasterByte,
    WipeByte,
    WordCount,
    LowByte,
    HighByte,
    Stopped,
}

// While a section's count comes, its bytes so far and how many these are; then how many bytes of a tag, or words, are left.
#[derive(Clone, Copy)]
pub struct Count {
    pub left: u32,
    pub seen: u8,
}

// The first `size` bytes are the tag. Nothing is allocated, and a job holds its tag by value: so the room is of one size.
#[derive(Clone, Copy)]
pub struct Tag {
    pub bytes: [u8; 32],
    pub size: u8,
}

#[derive(Clone, Copy)]
pub struct Options {
    pub raster: u8,
    pub wipe: bool,
}

// low: of a word whose high byte is to come.
#[derive(Clone, Copy)]
pub struct Reader {
    pub stage: Stage,
    pub count: Count,
    pub low: u8,
    pub tag: Tag,
    pub options: Options,
}

// What a byte completes: nothing of these; the options, with their raster; a word.
#[derive(Clone, Copy)]
pub enum Piece {
    More,
    Chosen(u8),
    Word(u16),
}

// ends: the byte was the last of a job.
#[derive(Clone, Copy)]
pub struct Read {
    pub piece: Piece,
    pub ends: bool,
    pub reader: Reader,
}

fn bring(piece: Piece, reader: Reader) -> Read
    ensures { Ok result ≡ brings piece reader }
{
    Read {
        piece,
        ends: false,
        reader,
    }
}

fn end(piece: Piece) -> Read
    ensures { Ok result ≡ ends piece }
{
    Read {
        piece,
        ends: true,
        reader: Reader::fresh(),
    }
}

impl Count {
    // No byte of a count is there, and so many of its section are left.
    fn of(left: u32) -> Count
        ensures { result ≡ record { left = left; seen = 0 } }
    {
        Count { left, seen: 0 }
    }

    // The bytes so far and one more, lowest first: after four of them the count.
    fn with(self, byte: u8) -> u32
        ensures { result ≡ counted byte self }
    {
        self.left / 256 + u32::from(byte) * 0x1000000
    }

    // The whole count, if this is its fourth byte.
    fn whole(self, byte: u8) -> Option<u32>
        ensures { result ≡ (if ltb self.seen 3 then None else Some (counted byte self)) }
    {
        if self.seen < 3 {
            return None;
        }
        Some(self.with(byte))
    }
}

impl Tag {
    // A full tag takes no byte.
    #[tactic(auto, unfolding(crate::specs::Reader::tag_with))]
    fn with(mut self, byte: u8) -> Tag
        ensures { result ≡ tag_with byte self }
    {
        if self.size < 32 {
            self.bytes[usize::from(self.size)] = byte;
            self.size += 1;
        }
        self
    }
}

impl Reader {
    // Before the first job.
    pub fn fresh() -> Reader
        ensures { result ≡ fresh }
    {
        Reader {
            stage: Stage::TagCount,
            count: Count::of(0),
            low: 0,
            tag: Tag {
                bytes: [0; 32],
                size: 0,
            },
            options: Options {
                raster: 0,
                wipe: false,
            },
        }
    }

    // After a refusal.
    pub fn stopped() -> Reader
        ensures { result ≡ stopped }
    {
        Reader {
            stage: Stage::Stopped,
            ..Reader::fresh()
        }
    }

    // The same job at another stage, so many of a section being left.
    fn go_on(self, stage: Stage, left: u32) -> Reader
        ensures { result ≡ goes_on self stage left }
    {
        Reader {
            stage,
            count: Count::of(left),
            ..self
        }
    }

    // The same job at another stage, with these options.
    fn choose(self, stage: Stage, options: Options) -> Reader
        ensures { result ≡ chooses self stage options }
    {
        Reader {
            stage,
            count: Count::of(0),
            options,
            ..self
        }
    }

    // The same job with a byte more of its tag.
    #[tactic(auto, unfolding(crate::specs::Reader::tagged))]
    fn tagged(self, byte: u8) -> Reader
        ensures { result ≡ tagged self byte }
    {
        Reader {
            tag: self.tag.with(byte),
            ..self
        }
    }

    // One of the first three bytes of a count.
    fn wait(self, byte: u8) -> Read
        requires { self.count.seen < 3 }
        ensures { Ok result ≡ waits self (counted byte self.count) }
    {
        let count = Count {
            left: self.count.with(byte),
            seen: self.count.seen + 1,
        };
        bring(Piece::More, Reader { count, ..self })
    }

    // A byte of each stage.
    #[tactic(auto, unfolding(crate::specs::Reader::of_tag_count))]
    fn of_tag_count(self, byte: u8) -> Result<Read, Refusal>
        ensures { result ≡ of_tag_count self byte }
    {
        let Some(size) = self.count.whole(byte) else {
            return Ok(self.wait(byte));
        };
        if !matches!(size, 1..=32) {
            return Err(Refusal::BadFile);
        }
        Ok(bring(Piece::More, Reader::fresh().go_on(Stage::TagBytes, size)))
    }

    #[tactic(auto, unfolding(crate::specs::Reader::of_tag_byte))]
    fn of_tag_byte(self, byte: u8) -> Result<Read, Refusal>
        ensures { result ≡ of_tag_byte self byte }
    {
        if !byte.is_ascii_graphic() {
            return Err(Refusal::BadFile);
        }
        let left = self.count.left;
        let reader = self.tagged(byte);
        if left < 2 {
            return Ok(bring(Piece::More, reader.go_on(Stage::OptionsCount, 0)));
        }
        Ok(bring(Piece::More, reader.go_on(Stage::TagBytes, left - 1)))
    }

    #[tactic(auto, unfolding(crate::specs::Reader::of_options_count))]
    fn of_options_count(self, byte: u8) -> Result<Read, Refusal>
        ensures { result ≡ of_options_count self byte }
    {
        let Some(size) = self.count.whole(byte) else {
            return Ok(self.wait(byte));
        };
        if size != 2 {
            return Err(Refusal::BadFile);
        }
        Ok(bring(Piece::More, self.go_on(Stage::RasterByte, 0)))
    }

    fn of_raster_byte(self, byte: u8) -> Read
        ensures { Ok result ≡ of_raster_byte self byte }
    {
        let options = Options {
            raster: byte,
            wipe: false,
        };
        bring(Piece::More, self.choose(Stage::WipeByte, options))
    }

    // 9 before 4.
    #[tactic(auto, using(raster::proofs::Table::looked_up_none, raster::proofs::Table::looked_up_found), unfolding(crate::specs::Reader::of_wipe_byte))]
    fn of_wipe_byte(self, byte: u8) -> Result<Read, Refusal>
        ensures { result ≡ of_wipe_byte self byte }
    {
        let raster = self.options.raster;
        let wipe = match byte {
            0 => false,
            1 => true,
            _ => return Err(Refusal::BadFile),
        };
        raster::raster_of(u32::from(raster))?;
        let options = Options { raster, wipe };
        Ok(bring(
            Piece::Chosen(raster),
            self.choose(Stage::WordCount, options),
        ))
    }

    #[tactic(auto, unfolding(crate::specs::Reader::of_word_count))]
    fn of_word_count(self, byte: u8) -> Result<Read, Refusal>
        ensures { result ≡ of_word_count self byte }
    {
        let Some(count) = self.count.whole(byte) else {
            return Ok(self.wait(byte));
        };
        if count == 0 {
            return Ok(end(Piece::More));
        }
        Ok(bring(Piece::More, self.go_on(Stage::LowByte, count)))
    }

    fn of_low_byte(self, byte: u8) -> Read
        ensures { Ok result ≡ of_low_byte self byte }
    {
        let reader = Reader {
            stage: Stage::HighByte,
            low: byte,
            ..self
        };
        bring(Piece::More, reader)
    }

    #[tactic(auto, unfolding(crate::specs::Reader::of_high_byte))]
    fn of_high_byte(self, byte: u8) -> Result<Read, Refusal>
        ensures { result ≡ of_high_byte self byte }
    {
        let word = u16::from_le_bytes([self.low, byte]);
        if 0x3ff < word {
            return Err(Refusal::TooHigh);
        }
        let left = self.count.left;
        if left < 2 {
            return Ok(end(Piece::Word(word)));
        }
        Ok(bring(Piece::Word(word), self.go_on(Stage::LowByte, left - 1)))
    }

    // What a byte brings; 9, 4, 3.
    #[tactic(auto, unfolding(crate::specs::Reader::read_of))]
    fn of_byte(self, byte: u8) -> Result<Read, Refusal>
        ensures { result ≡ read_of self byte }
    {
        match self.stage {
            Stage::TagCount => self.of_tag_count(byte),
            Stage::TagBytes => self.of_tag_byte(byte),
            Stage::OptionsCount => self.of_options_count(byte),
            Stage::RasterByte => Ok(self.of_raster_byte(byte)),
            Stage::WipeByte => self.of_wipe_byte(byte),
            Stage::WordCount => self.of_word_count(byte),
            Stage::LowByte => Ok(self.of_low_byte(byte)),
            Stage::HighByte => self.of_high_byte(byte),
            Stage::Stopped => Ok(bring(Piece::More, self)),
        }
    }

    // Takes a byte; 9, 4, 3. After a refusal nothing of the file is read any more: the reader is left stopped.
    pub fn read(&mut self, byte: u8) -> Result<Read, Refusal>
        ensures answer { result ≡ read_of self.old byte }
        ensures after { self.new ≡ left_by (read_of self.old byte) }
    {
        let read = self.of_byte(byte);
        *self = match read {
            Ok(read) => read.reader,
            Err(_) => Reader::stopped(),
        };
        read
    }

    // Whether a file that ends here is cut short.
    #[tactic(auto, unfolding(crate::specs::Reader::is_cut))]
    pub fn is_cut(self) -> bool
        ensures { result ≡ is_cut self }
    {
        match self.stage {
            Stage::TagCount => self.count.seen != 0,
            Stage::Stopped => false,
            _ => true,
        }
    }
}
