// Numbers: of a request, and of an answer.
ghost use Rattle.std.specs.Prelude.{◌≡◌};
ghost use Rattle.refusal.specs.Refusal.{refusal_of};

use refusal::Refusal;

// The number at a place of a request, 0 where there is none.
pub fn arg(args: &[u32], at: usize) -> u32 {
    args.get(at).copied().unwrap_or(0)
}

// The low sixteen and the low eight bits.
pub fn word(n: u32) -> u16 {
    (n % 65536) as u16
}

pub fn byte(n: u32) -> u8 {
    (n % 256) as u8
}

// The number of an answer's refusal, 0 where there is none.
pub fn number_of<T>(answer: &Result<T, Refusal>) -> u8
    ensures { result ≡ refusal_of answer.now }
{
    match answer {
        Ok(_) => 0,
        Err(refusal) => u8::from(*refusal),
    }
}
