// The CRC of a channel: the register's steps, and its two words.
#![tactic(auto)]

pub mod sheet;

ghost use Rattle.std.specs.Prelude.{◌≡◌};
ghost use Rattle.crc.specs.Crc.{crc_words, ran, cr_words};

use refusal::Refusal;
use sheet::STEPS;

// The highest register: eighteen ones.
pub const REGISTER_TOP: u32 = 0x3ffff;

// CR0 and CR1.
#[derive(Clone, Copy, Default)]
pub struct CrcWords {
    pub cr0: u16,
    pub cr1: u16,
}

// The register after words, whatever they are. The compiler lays the sheet out anew in each call, so the loop stands where the sheet is named.
pub fn step_words(register: u32, words: &[u16]) -> u32
    ensures { result ≡ crc_words register words.now }
{
    let steps = STEPS;
    let mut r = register;
    for word in words {
        let index = (r ^ *word as u32) % 1024;
        r = steps[index as usize] ^ (r / 1024);
    }
    r
}

// The register after words; 3.
#[tactic(auto, unfolding(crate::specs::Crc::ran))]
pub fn run(register: u32, words: &[u16]) -> Result<u32, Refusal>
    ensures { result ≡ ran register words.now }
{
    if register > REGISTER_TOP || !bits::all_words(words) {
        return Err(Refusal::TooHigh);
    }
    Ok(step_words(register, words))
}

// CR0 and CR1 of a register; 3.
#[tactic(auto, using(bits::proofs::Words::nine_of_low), unfolding(crate::specs::Crc::cr_words))]
pub fn words_of(register: u32) -> Result<CrcWords, Refusal>
    ensures { result ≡ cr_words register }
{
    if register > REGISTER_TOP {
        return Err(Refusal::TooHigh);
    }
    let cr0 = bits::nine((register % 512) as u16);
    let cr1 = bits::nine((register / 512) as u16);
    Ok(CrcWords { cr0, cr1 })
}
