// Laying: what an event writes into the lent row of one channel.
#![tactic(auto)]

ghost use Rattle.std.specs.Prelude.{◌≡◌};
ghost use Rattle.laying.specs.Laying.{eav_laid, laid_by, pair_laid};

use recogniser::Event;

// A pair's word at its place, if the place is one of the row's T.
fn lay_pair(total: u32, at: usize, word: u16, buffer: &mut [u16])
    ensures { buffer.new ≡ pair_laid total at word buffer.old }
{
    if at < total as usize {
        bits::put(buffer, at, word);
    }
}

// The four words of an EAV at the row's start.
fn lay_eav(xyz: u16, buffer: &mut [u16])
    ensures { buffer.new ≡ eav_laid xyz buffer.old }
{
    parts::lay(buffer, 0, &stream::trs(xyz));
}

// What an event writes where the pair that ended has this word and this place in the open row.
#[tactic(auto, unfolding(crate::specs::Laying::laid_by))]
pub fn lay_event(event: Event, total: u32, at: usize, word: u16, buffer: &mut [u16])
    ensures { buffer.new ≡ laid_by event total at word buffer.old }
{
    match event {
        Event::Pair => lay_pair(total, at, word, buffer),
        Event::Opens | Event::Whole => lay_eav(word, buffer),
        Event::Early => {
            lay_pair(total, at, word, buffer);
            lay_eav(word, buffer);
        }
        Event::Outside | Event::Within | Event::Late | Event::Astray => {}
    }
}
