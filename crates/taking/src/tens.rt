// Words of ten bits, taken two by two.
ghost use Rattle.std.specs.Prelude.{◌≡◌, true, false, ◌+◌, ◌*◌, ◌/◌, ◌≤◌, ◌<◌, length, drop};
ghost use Rattle.bits.specs.Words.{words10};
ghost use Rattle.parts.specs.Parts.{part};
ghost use Rattle.taking.specs.Hurry.{Calm, CalmFor, last_after, NoGap};

use align::SYNC;

// Words are taken in blocks of so many.
pub(crate) const BLOCK: usize = 512;

// Words of ten bits, no more than a block.
#[derive(Clone, Copy)]
pub(crate) struct Block<'a> {
    pub(crate) words: &'a [u16],
    ghost tens: { words10 words.now ≡ true },
    ghost few: { length words.now ≤ 512 },
}

// The last sixty bits, as a number, oldest lowest.
#[derive(Clone, Copy)]
pub(crate) struct Last {
    pub(crate) bits: u64,
    ghost sixty: { bits < 0x1000000000000000 },
}

impl Last {
    // Whether no sync can end in the next twenty bits: of its twenty ones too few are left among the oldest, or a one is among the last twenty, or
    // none ends if the next are zeros, and so none whatever they are.
    #[tactic(auto, using(crate::proofs::Sliding::calm_low, crate::proofs::Sliding::calm_high, crate::proofs::Sliding::calm_zeros))]
    fn is_calm(self) -> bool
        ensures { result ≡ true → Calm self.bits }
    {
        let bits = self.bits;
        if bits < 0x1ffffe || 0x10000000000 <= bits {
            return true;
        }
        for k in 1..=20u32 {
            if bits >> k == SYNC {
                return false;
            }
        }
        true
    }

    // The last sixty bits after a pair of words.
    pub(crate) fn slide(self, c: u16, y: u16) -> Last
        requires { (c ≤ 0x3ff) × (y ≤ 0x3ff) }
        ensures { result.bits ≡ self.bits / 0x100000 + (c + y * 1024) * 0x10000000000 }
    {
        Last {
            bits: self.bits / 0x100000 + (c as u64 + y as u64 * 1024) * 0x10000000000,
        }
    }
}

// Whether two words of zeros stand one after the other. There is no early return, so that many words are compared at once.
fn has_gap(words: &[u16]) -> bool
    ensures { result ≡ false → NoGap words.now }
{
    let mut found = false;
    for i in 1..words.len() {
        found |= (words[i - 1] == 0) & (words[i] == 0);
    }
    found
}

impl<'a> Block<'a> {
    // So many words, from a place on.
    #[tactic(auto, using(bits::proofs::Words::tens_take, bits::proofs::Words::tens_drop))]
    pub(crate) fn part(self, from: usize, count: usize) -> Block<'a>
        requires { from + count ≤ length self.words.now }
        ensures { result.words.now ≡ part from count self.entry.words.now }
    {
        Block {
            words: &self.words[from..from + count],
        }
    }

    // The words after so many.
    #[tactic(auto, using(bits::proofs::Words::tens_take, bits::proofs::Words::tens_drop))]
    pub(crate) fn after(self, count: usize) -> Block<'a>
        requires { count ≤ length self.words.now }
        ensures { result.words.now ≡ drop count self.entry.words.now }
    {
        Block {
            words: &self.words[count..],
        }
    }

    // For how many pairs of words, of so many, no sync can end in them.
    #[tactic(auto, using(bits::proofs::Words::words10_at))]
    pub(crate) fn calm_pairs(self, last: Last, most: usize) -> usize
        requires { 2 * most ≤ length self.words.now }
        ensures { (result ≤ most) × CalmFor last.bits self.entry.words.now result }
    {
        if !last.is_calm() {
            return 0;
        }
        if !has_gap(&self.words[..2 * most]) {
            return most;
        }
        let mut l = last;
        for k in 0..most {
            if !l.is_calm() {
                return k;
            }
            l = l.slide(self.words[2 * k], self.words[2 * k + 1]);
        }
        most
    }

    // The last sixty bits after pairs of words, of which the last three count.
    #[tactic(auto, using(bits::proofs::Words::words10_at))]
    pub(crate) fn last_after(self, last: Last, pairs: usize) -> Last
        requires { 2 * pairs ≤ length self.words.now }
        ensures { result.bits ≡ last_after last.bits self.entry.words.now pairs }
    {
        let mut l = last;
        for k in pairs.saturating_sub(3)..pairs {
            l = l.slide(self.words[2 * k], self.words[2 * k + 1]);
        }
        l
    }
}
