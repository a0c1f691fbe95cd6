// A step: one unscrambled bit recognised, judged, tallied, laid; and the ten bits of a word.
#![tactic(auto)]

ghost use Rattle.std.specs.Prelude.{◌≡◌};
ghost use Rattle.bits.specs.Bits.{bits};
ghost use Rattle.laying.specs.Laying.{laid_by};
ghost use Rattle.stepper.specs.Step.{arrived, is_quiet, run, stepped, steps};

use judging::Track;
use recogniser::{Event, Looked, Sight};
use tally::Counts;

// What is seen of the stream, what is expected of the next row, what was counted.
#[derive(Clone, Copy)]
pub struct State {
    pub sight: Sight,
    pub track: Track,
    pub counts: Counts,
}

// Whether an event changes only what is seen.
fn is_quiet(event: Event) -> bool
    ensures { result ≡ is_quiet event }
{
    matches!(event, Event::Outside | Event::Within)
}

impl State {
    // What is recognised with a bit is judged, tallied, laid. The row is judged before anything is laid.
    fn arrive(&mut self, raster: u32, total: u32, looked: Looked, y: &mut [u16], c: &mut [u16])
        ensures { run self.new y.new c.new ≡ arrived laid_by raster total looked (run self.old y.old c.old) }
    {
        let Looked { event, sight } = looked;
        let n = total as usize;
        let happened = judging::happen(
            event,
            raster,
            self.track,
            parts::part(y, 0, n),
            parts::part(c, 0, n),
        );
        let at = self.sight.place.pairs;
        let pair = recogniser::last_pair(sight.window.last);
        laying::lay_event(event, total, at, pair.y, y);
        laying::lay_event(event, total, at, pair.c, c);
        self.sight = sight;
        self.track = happened.track;
        self.counts = tally::tally(happened.happening, self.counts);
    }

    // One unscrambled bit. Most of them change only what is seen.
    #[tactic(auto, unfolding(crate::specs::Step::stepped, judging::specs::Happening::happened, laying::specs::Laying::laid_by, tally::specs::Tally::tallied))]
    fn step(&mut self, raster: u32, total: u32, bit: bool, y: &mut [u16], c: &mut [u16])
        ensures { run self.new y.new c.new ≡ stepped laid_by raster total bit (run self.old y.old c.old) }
    {
        let looked = recogniser::look(self.sight, bit, total);
        if is_quiet(looked.event) {
            let sight = looked.sight;
            self.sight = sight;
        } else {
            self.arrive(raster, total, looked, y, c);
        }
    }

    // Ten unscrambled bits, lowest first.
    #[tactic(auto, using(crate::proofs::Stepping::steps_none, crate::proofs::Stepping::steps_bit), unfolding(bits::specs::Bits::odd))]
    pub fn take_word(
        self,
        raster: u32,
        total: u32,
        word: u16,
        y: &mut [u16],
        c: &mut [u16],
    ) -> State
        ensures { run result y.new c.new ≡ steps laid_by raster total (bits 10 word) (run self y.old c.old) }
    {
        let mut state = self;
        for bit in 0..10u32 {
            state.step(raster, total, (word >> bit) % 2 == 1, y, c);
        }
        state
    }
}
