// The recogniser: what each unscrambled bit completes. It sees bits and no rows.
#![tactic(auto)]

ghost use Rattle.std.specs.Prelude.{◌≡◌};
ghost use Rattle.align.specs.Search.{slid};
ghost use Rattle.recogniser.specs.Sight.{is_eav, last_pair, window_after};
ghost use Rattle.recogniser.specs.Event.{eav_ends, is_fourth, looked, place, seen_at};

use align::SYNC;
use timing::Fvh;

// The end of the stream: its last sixty bits as a number, oldest lowest; how many bits of a sync's XYZ pair are still to come;
// whether a sync was seen.
#[derive(Clone, Copy)]
pub struct Window {
    pub last: u64,
    pub ahead: u8,
    pub seen: bool,
}

// How far the open row has come: pairs that have ended, bits of the next pair. Both are numbers of the session (docs/SESSION.md): where no row is
// open they are 0, and there is no None.
#[derive(Clone, Copy)]
pub struct Place {
    pub pairs: usize,
    pub bit: u8,
}

impl Place {
    // Where no row is open.
    pub const NOWHERE: Place = Place { pairs: 0, bit: 0 };

    // Where a row has just been opened, its EAV's four pairs being there.
    pub const OPENED: Place = Place { pairs: 4, bit: 0 };

    fn new(pairs: usize, bit: u8) -> Place
        ensures { result ≡ place pairs bit }
    {
        Place { pairs, bit }
    }
}

#[derive(Clone, Copy)]
pub struct Sight {
    pub window: Window,
    pub place: Place,
}

// What a bit completes: nothing, outside of rows; nothing, within a pair; a pair; an EAV that opens a row, that ends a whole row, or that comes
// early; the four pairs after the T-th, no EAV; a sync at another alignment.
#[derive(Clone, Copy)]
pub enum Event {
    Outside,
    Within,
    Pair,
    Opens,
    Whole,
    Early,
    Late,
    Astray,
}

// The words of a pair.
#[derive(Clone, Copy)]
pub struct Words {
    pub c: u16,
    pub y: u16,
}

#[derive(Clone, Copy)]
pub struct Looked {
    pub event: Event,
    pub sight: Sight,
}

// One bit more, one less.
fn slide(last: u64, bit: bool) -> u64
    ensures { result ≡ slid last bit }
{
    last / 2 + u64::from(bit) * 0x800000000000000
}

// The words of the last twenty bits.
pub fn last_pair(last: u64) -> Words
    ensures { result ≡ last_pair last }
{
    Words {
        c: (last / 0x10000000000 % 1024) as u16,
        y: (last / 0x4000000000000 % 1024) as u16,
    }
}

// Whether an XYZ word is an EAV's.
#[tactic(auto, unfolding(crate::specs::Sight::is_eav))]
fn is_eav(word: u16) -> bool
    ensures { result ≡ is_eav word }
{
    matches!(timing::read_xyz(word), Ok(Some(Fvh { h: true, .. })))
}

// Whether an XYZ pair ends, of which so many bits were still to come, and is an EAV's.
fn eav_ends(ahead: u8, last: u64) -> bool
    ensures { result ≡ eav_ends ahead last }
{
    ahead == 1 && is_eav(last_pair(last).y)
}

// The stream with one bit more.
#[tactic(auto, using(crate::proofs::Events::sync_number), unfolding(crate::specs::Sight::window_after))]
fn hear(window: Window, bit: bool) -> Window
    ensures { result ≡ window_after bit window }
{
    let last = slide(window.last, bit);
    let sync = last == SYNC;
    let ahead = if sync {
        20
    } else {
        window.ahead.saturating_sub(1)
    };
    let seen = window.seen || sync;
    Window { last, ahead, seen }
}

// Whether the pair that ends next is the fourth after the T-th. Nothing else here reads T.
fn is_fourth(total: u32, pairs: usize) -> bool
    ensures { result ≡ is_fourth total pairs }
{
    total as usize + 3 <= pairs
}

// An event, and what is seen after it.
fn seen(event: Event, window: Window, place: Place) -> Looked
    ensures { result ≡ seen_at event window place }
{
    let sight = Sight { window, place };
    Looked { event, sight }
}

// What a bit completes where rows have T pairs, and what is seen then. Each case returns by itself, for speed: as one value of all cases, the place
// is copied through memory at every bit.
#[tactic(auto, using(crate::proofs::Events::sync_number), unfolding(crate::specs::Event::looked, crate::specs::Event::event_of))]
pub fn look(sight: Sight, bit: bool, total: u32) -> Looked
    ensures { result ≡ looked total bit sight }
{
    let window = hear(sight.window, bit);
    let eav = eav_ends(sight.window.ahead, window.last);
    let Place { pairs, bit: at } = sight.place;
    if pairs == 0 {
        if eav {
            return seen(Event::Opens, window, Place::OPENED);
        }
        return seen(Event::Outside, window, Place::NOWHERE);
    }
    let fourth = is_fourth(total, pairs);
    if eav {
        if fourth {
            return seen(Event::Whole, window, Place::OPENED);
        }
        return seen(Event::Early, window, Place::OPENED);
    }
    if at < 19 {
        if window.last == SYNC {
            return seen(Event::Astray, window, Place::NOWHERE);
        }
        return seen(Event::Within, window, Place::new(pairs, at + 1));
    }
    if fourth {
        return seen(Event::Late, window, Place::NOWHERE);
    }
    seen(Event::Pair, window, Place::new(pairs + 1, 0))
}
