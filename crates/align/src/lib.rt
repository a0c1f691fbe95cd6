// Finding alignment: the first sync in unscrambled words.
#![tactic(auto)]

ghost use Rattle.std.specs.Prelude.{◌≡◌, ◌<◌, None};
ghost use Rattle.std.specs.ControlFlow.{ForBreak};
ghost use Rattle.bits.specs.Choice.{if};
ghost use Rattle.bits.specs.Bits.{bits};
ghost use Rattle.bits.specs.Words.{words10};
ghost use Rattle.align.specs.Sync.{first_sync, found_sync, sync_refusal, sync_place, sync_at};
ghost use Rattle.align.specs.Search.{searched, place_ending};

use refusal::Refusal;
use std::ops::ControlFlow;

// Where a sync starts: in which word, and at which of its ten bits. As one number a place need not fit sixty-four bits.
#[derive(Clone, Copy, Debug, PartialEq, Eq)]
pub struct SyncPlace {
    pub word: usize,
    pub bit: usize,
}

// The last sixty bits as a number, oldest lowest, when they are a sync: 20 ones, then 40 zeros.
pub const SYNC: u64 = 0xfffff;

// Lets a word's ten bits into the last sixty, one by one, until these are a sync: breaks at the bit at which it ends, or goes on with the last sixty.
#[tactic(auto, using(crate::proofs::Search::searched_stop, crate::proofs::Search::searched_step, crate::proofs::Search::searched_end))]
fn search_word(last: u64, word: u16) -> ControlFlow<usize, u64>
    ensures answer { result ≡ searched 0 last (bits 10 word) }
    ensures within { ForBreak result (λ bit. bit < 10) }
{
    let mut l = last;
    let mut w = word;
    for bit in 0..10 {
        l = l / 2 + (w % 2) as u64 * 0x800000000000000;
        w /= 2;
        if l == SYNC {
            return ControlFlow::Break(bit);
        }
    }
    ControlFlow::Continue(l)
}

// The place of a sync that ends at a bit of a word: 59 bits before.
fn place_before(word: usize, bit: usize) -> SyncPlace
    requires { bit < 10 }
    ensures { result ≡ sync_at (place_ending word bit) }
{
    if word < 6 {
        SyncPlace { word: 0, bit: 0 }
    } else if bit == 9 {
        SyncPlace {
            word: word - 5,
            bit: 0,
        }
    } else {
        SyncPlace {
            word: word - 6,
            bit: bit + 1,
        }
    }
}

// The first sync in unscrambled words, in the order in which they came; 3.
#[tactic(auto, using(crate::proofs::Search::ends_step))]
pub fn find_sync(words: &[u16]) -> Result<Option<SyncPlace>, Refusal>
    ensures answer { result ≡ found_sync words.now }
    ensures means { (sync_refusal result ≡ if (words10 words.now) 0 3) × (sync_place result ≡ if (words10 words.now) (first_sync words.now) None) }
{
    if !bits::all_words(words) {
        return Err(Refusal::TooHigh);
    }
    let mut last = 0u64;
    for (i, word) in words.iter().enumerate() {
        match search_word(last, *word) {
            ControlFlow::Break(bit) => return Ok(Some(place_before(i, bit))),
            ControlFlow::Continue(l) => last = l,
        }
    }
    Ok(None)
}
