// The words of a feed: many at once where nothing but pairs of a row can end, else bit by bit.
#![tactic(auto)]

mod tens;

ghost use Rattle.std.specs.Prelude.{◌≡◌, true, false, ℕ, ◌+◌, ◌*◌, ◌/◌, ◌≤◌, ◌<◌, length, get_or, take, drop, MatchOption};
ghost use Rattle.bits.specs.Bits.{word_bits};
ghost use Rattle.cable.specs.Words.{unscramble_words};
ghost use Rattle.recogniser.specs.Event.{nowhere};
ghost use Rattle.laying.specs.Laying.{laid_by};
ghost use Rattle.stepper.specs.declared.State.{State};
ghost use Rattle.stepper.specs.Step.{run, seeing, steps};
ghost use Rattle.taking.specs.Deal.{dealt, straddling};
ghost use Rattle.taking.specs.Hurry.{CalmFor, gone_on, last_after, standing, stands};

use recogniser::{Place, Sight, Window};
use stepper::State;
use tens::{BLOCK, Block, Last};

// The words that are left after some were taken at once, and what is seen then.
#[derive(Clone, Copy)]
struct Hurried<'a> {
    left: Block<'a>,
    sight: Sight,
}

// Unscrambles words into a block. Each word's history is read and not carried, so that the loop takes many words at once.
fn unscramble_block(history: u16, words: &[u16], block: &mut [u16])
    requires { (1 ≤ length words.now) × (length words.now ≤ length block.old) }
    ensures { take (length words.now) block.new ≡ unscramble_words history words.now }
{
    block[0] = cable::unscramble_word(history, words[0]);
    for i in 1..words.len() {
        block[i] = cable::unscramble_word(words[i - 1], words[i]);
    }
}

// Cuts a word of ten bits out of each word and the next, from a bit of the first on. The shift is a number of the program and not of the feed, so that
// the compiler can have the loop take many words at once.
#[tactic(auto, using(bits::proofs::Words::words10_at))]
fn straddle_by<const UP: u32>(block: Block<'_>, out: &mut [u16])
    requires { (UP ≤ 9) × (length block.words.now ≤ length out.old + 1) }
    ensures { (i : ℕ) → i + 1 < length block.entry.words.now → get_or out.new i 0 ≡ straddling block.entry.words.now i UP }
{
    let words = block.words;
    for i in 1..words.len() {
        out[i - 1] = (words[i - 1] >> (10 - UP)) + (words[i] << UP) % 1024;
    }
}

// The same by a shift that is the feed's.
fn straddle_words(block: Block<'_>, up: u32, out: &mut [u16])
    requires { (up ≤ 9) × (length block.words.now ≤ length out.old + 1) }
    ensures { (i : ℕ) → i + 1 < length block.entry.words.now → get_or out.new i 0 ≡ straddling block.entry.words.now i up }
{
    match up {
        0 => straddle_by::<0>(block, out),
        1 => straddle_by::<1>(block, out),
        2 => straddle_by::<2>(block, out),
        3 => straddle_by::<3>(block, out),
        4 => straddle_by::<4>(block, out),
        5 => straddle_by::<5>(block, out),
        6 => straddle_by::<6>(block, out),
        7 => straddle_by::<7>(block, out),
        8 => straddle_by::<8>(block, out),
        _ => straddle_by::<9>(block, out),
    }
}

// Deals words out, C first, two pairs a turn. No word is above 3FF: the way out of the loop is never taken. It keeps the compiler from taking the
// words apart by shuffles of many at once, which are slower where the program runs under an emulator.
#[tactic(auto, using(bits::proofs::Words::words10_at))]
fn deal(block: Block<'_>, pairs: usize, from: usize, y: &mut [u16], c: &mut [u16])
    requires { (2 * pairs ≤ length block.words.now) × (from + pairs ≤ length y.old) × (from + pairs ≤ length c.old) }
    ensures { (y.new ≡ dealt block.entry.words.now 1 from pairs y.old) × (c.new ≡ dealt block.entry.words.now 0 from pairs c.old) }
{
    let words = block.words;
    for k in 0..pairs / 2 {
        let at = from + 2 * k;
        let second = words[4 * k + 3];
        if 0x3ff < second {
            return;
        }
        c[at] = words[4 * k];
        y[at] = words[4 * k + 1];
        c[at + 1] = words[4 * k + 2];
        y[at + 1] = second;
    }
    if pairs % 2 == 1 {
        let k = pairs - 1;
        c[from + k] = words[2 * k];
        y[from + k] = words[2 * k + 1];
    }
}

// Lays the pairs of an open row that end in pairs of words. The first of them may have begun before these words.
#[tactic(auto, using(bits::proofs::Words::words10_at))]
fn lay_pairs(
    last: Last,
    block: Block<'_>,
    pairs: usize,
    place: Place,
    total: u32,
    y: &mut [u16],
    c: &mut [u16],
)
    requires { (2 * pairs ≤ length block.words.now) × CalmFor last.bits block.words.now pairs × (1 ≤ place.pairs) × (place.pairs + pairs ≤ total) × (place.bit ≤ 19) × (total ≤ length y.old) × (total ≤ length c.old) }
    ensures { (code : ℕ) → (s : State) → gone_on code total block.entry.words.now (run (standing s last.bits place) y.old c.old) ≡ gone_on code total (drop (2 * pairs) block.entry.words.now) (run (standing s (last_after last.bits block.entry.words.now pairs) (record { pairs = place.pairs + pairs; bit = place.bit })) y.new c.new) }
{
    if pairs == 0 {
        return;
    }
    let from = place.pairs;
    let bit = place.bit;
    let pair = last.slide(block.words[0], block.words[1]).bits / 0x100000 >> (20 - bit as u32);
    c[from] = (pair % 1024) as u16;
    y[from] = (pair / 1024 % 1024) as u16;
    let mut cut = [0u16; BLOCK];
    straddle_words(
        block.part(1 - bit as usize / 10, 2 * pairs - 1),
        bit as u32 % 10,
        &mut cut,
    );
    let others = Block {
        words: &cut[..2 * (pairs - 1)],
    };
    deal(others, pairs - 1, from + 1, y, c);
}

// The last sixty bits; none where an XYZ pair is awaited.
fn free(window: Window) -> Option<Last>
    ensures { MatchOption result (Unit {0}) (λ last. (window.ahead ≡ 0) × (window.last ≡ last.bits)) }
{
    if window.ahead == 0 && window.last < 0x1000000000000000 {
        return Some(Last { bits: window.last });
    }
    None
}

// Whether no row is open.
fn is_nowhere(place: Place) -> bool
    ensures { result ≡ true → place ≡ nowhere }
{
    place.pairs == 0 && place.bit == 0
}

// How many pairs an open row has room for up to its T-th; none where no row is open, it has more already, a pair more has ended, or buffers of so
// many words have no room for T.
fn room(place: Place, total: u32, y: usize, c: usize) -> Option<usize>
    ensures { MatchOption result (Unit {0}) (λ room. (1 ≤ place.pairs) × (place.pairs + room ≡ total) × (place.bit ≤ 19) × (total ≤ y) × (total ≤ c)) }
{
    let all = total as usize;
    if place.pairs == 0 || all < place.pairs || 19 < place.bit || y < all || c < all {
        return None;
    }
    Some(all - place.pairs)
}

// What is left and seen after so many pairs of words in which nothing but pairs ended.
fn moved(sight: Sight, last: Last, block: Block<'_>, pairs: usize, place: Place) -> Hurried<'_>
    requires { 2 * pairs ≤ length block.words.now }
    ensures { (result.left.words.now ≡ drop (2 * pairs) block.entry.words.now) × (result.sight ≡ stands sight (last_after last.bits block.entry.words.now pairs) place) }
{
    let window = Window {
        last: block.last_after(last, pairs).bits,
        ahead: 0,
        seen: sight.window.seen,
    };
    Hurried {
        left: block.after(2 * pairs),
        sight: Sight { window, place },
    }
}

// Takes pairs of words in which nothing but pairs can end; it may take none.
fn hurry<'a>(
    sight: Sight,
    total: u32,
    block: Block<'a>,
    y: &mut [u16],
    c: &mut [u16],
) -> Hurried<'a>
    ensures some { length result.left.words.now ≤ length block.entry.words.now }
    ensures rest { (code : ℕ) → (s : State) → gone_on code total block.entry.words.now (run (seeing s sight) y.old c.old) ≡ gone_on code total result.left.words.now (run (seeing s result.sight) y.new c.new) }
{
    let place = sight.place;
    let ahead = block.words.len() / 2;
    let Some(last) = free(sight.window) else {
        return Hurried { left: block, sight };
    };
    if is_nowhere(place) {
        let n = block.calm_pairs(last, ahead);
        return moved(sight, last, block, n, place);
    }
    let Some(room) = room(place, total, y.len(), c.len()) else {
        return Hurried { left: block, sight };
    };
    let n = block.calm_pairs(last, ahead.min(room));
    lay_pairs(last, block, n, place, total, y, c);
    let place = Place {
        pairs: place.pairs + n,
        bit: place.bit,
    };
    moved(sight, last, block, n, place)
}

// Unscrambled words.
fn take_block(
    state: State,
    raster: u32,
    total: u32,
    block: Block<'_>,
    y: &mut [u16],
    c: &mut [u16],
) -> State
    ensures { run result y.new c.new ≡ steps laid_by raster total (word_bits block.entry.words.now) (run state y.old c.old) }
{
    let mut s = state;
    let mut left = block;
    loop {
        let hurried = hurry(s.sight, total, left, y, c);
        s.sight = hurried.sight;
        left = hurried.left;
        if left.words.is_empty() {
            return s;
        }
        s = s.take_word(raster, total, left.words[0], y, c);
        left = left.after(1);
    }
}

// Cable words after a history.
pub fn take_words(
    state: State,
    raster: u32,
    total: u32,
    history: u16,
    words: &[u16],
    y: &mut [u16],
    c: &mut [u16],
) -> State
    ensures { run result y.new c.new ≡ steps laid_by raster total (word_bits (unscramble_words history words.now)) (run state y.old c.old) }
{
    let mut block = [0u16; BLOCK];
    let mut s = state;
    let mut h = history;
    for scrambled in words.chunks(BLOCK) {
        let n = scrambled.len();
        unscramble_block(h, scrambled, &mut block);
        s = take_block(s, raster, total, Block { words: &block[..n] }, y, c);
        h = scrambled[n - 1];
    }
    s
}
