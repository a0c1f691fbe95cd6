// The CRC registers of both channels at once.
#![tactic(auto)]

ghost use Rattle.std.specs.Prelude.{◌≡◌, ◌+◌, ◌≤◌, length, take};
ghost use Rattle.crc.specs.Crc.{crc_words, crc_start};
ghost use Rattle.folding.specs.Channels.{crc_channels};
ghost use Rattle.folding.specs.Folding.{adds, loaded, Folded};

use crc::sheet::STEPS;

// A word may be taken out of a stretch and be xor-ed into those 152, 176 and 304 places on, where so many follow: the polynomial divides
// 1 + y^128 + y^152 + y^304, where y is ten bits of 0. So 304 words stand for a whole stretch. The distances are multiples of eight, and
// no word waits for one that was made just before: many are folded at once.
const BACK: usize = 304;

// So many are taken out before the last 304 are moved down.
const BLOCK: usize = 512;

// The registers of the channels Y and C.
#[derive(Clone, Copy, Debug, PartialEq, Eq)]
pub struct Registers {
    pub y: u32,
    pub c: u32,
}

// Takes words out: s holds the last 304 that were taken out, and after them come these.
fn fold_block(words: &[u16], s: &mut [u16])
    requires { length words.now + 304 ≤ length s.old }
    ensures { (take 304 s.new ≡ take 304 s.old) × Folded words.now s.new (length words.now) }
{
    for (i, word) in words.iter().enumerate() {
        s[i + BACK] = *word ^ s[i] ^ s[i + 128] ^ s[i + 152];
    }
}

// Xors words into the first of a tail.
#[tactic(auto, using(crate::proofs::Folding::adds_step), unfolding(crate::specs::Folding::adds))]
fn xor_in(tail: &mut [u16], words: &[u16])
    requires { length words.now ≤ length tail.old }
    ensures { tail.new ≡ adds tail.old words.now }
{
    for (i, word) in words.iter().enumerate() {
        tail[i] ^= *word;
    }
}

// Lays the last words down, into which those that were taken out before them are xor-ed.
fn finish(words: &[u16], out: &[u16], tail: &mut [u16])
    requires { (length words.now ≡ 304) × (length out.now ≡ 304) × (length tail.old ≡ 304) }
    ensures { tail.new ≡ loaded out.now words.now }
{
    tail.copy_from_slice(words);
    xor_in(tail, out);
    xor_in(tail, &out[128..]);
    xor_in(tail, &out[152..]);
}

// Folds words into 304, after which the register is the same. Zeros in front change nothing, so fewer words stand at the end.
fn fold(words: &[u16]) -> [u16; BACK]
    ensures { (length result ≡ 304) × (crc_words crc_start result ≡ crc_words crc_start words.now) }
{
    let mut tail = [0u16; BACK];
    let n = words.len();
    if n < BACK {
        parts::lay(&mut tail, BACK - n, words);
        return tail;
    }
    let (front, back) = words.split_at(n - BACK);
    let mut s = [0u16; BACK + BLOCK];
    for block in front.chunks(BLOCK) {
        fold_block(block, &mut s);
        s.copy_within(block.len()..block.len() + BACK, 0);
    }
    finish(back, &s[..BACK], &mut tail);
    tail
}

// The registers after two tails, by the service sheet. A word's lookup waits for that of the word before, and not for the other channel's.
fn step_tails(y: &[u16], c: &[u16]) -> Registers
    requires { length y.now ≡ length c.now }
    ensures { result ≡ crc_channels y.now c.now }
{
    let steps = STEPS;
    let mut ry = 0;
    let mut rc = 0;
    for (wy, wc) in y.iter().zip(c) {
        let iy = (ry ^ *wy as u32) % 1024;
        let ic = (rc ^ *wc as u32) % 1024;
        ry = steps[iy as usize] ^ (ry / 1024);
        rc = steps[ic as usize] ^ (rc / 1024);
    }
    Registers { y: ry, c: rc }
}

// The registers after the words of two channels, from zero, whatever they are.
pub fn step_channels(y: &[u16], c: &[u16]) -> Registers
    ensures { result ≡ crc_channels y.now c.now }
{
    step_tails(&fold(y), &fold(c))
}
