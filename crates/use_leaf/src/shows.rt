// Demand 2: "Unscrambling what was scrambled from the same start gives back the words."
ghost use Rattle.std.specs.Prelude.{◌≡◌, ◌++◌, ◌≤◌, drop, length};
ghost use Rattle.refusal.specs.Refusal.{refusal_of};
ghost use Rattle.cable.specs.Words.{code_refusal};

use refusal::Refusal;

// Scrambles words onto a cable, and unscrambles the cable's words from the same history: what both answer.
#[tactic(auto, using(crate::proofs::ThereAndBack::coded_number))]
pub fn there_and_back(
    history: u16,
    words: &[u16],
    cable: &mut [u16],
    back: &mut [u16],
) -> (Result<u16, Refusal>, Result<u16, Refusal>)
    ensures number { refusal_of result.0 ≡ code_refusal history words.now (length cable.old) }
    ensures words { refusal_of result.0 ≡ 0 → length words.now ≤ length back.old → (result.1 ≡ result.0) × (back.new ≡ words.now ++ drop (length words.now) back.old) }
    ensures refused { (refusal_of result.0 ≡ 0 → ⊥) → (cable.new ≡ cable.old) × (back.new ≡ back.old) }
    ensures kept { (refusal_of result.1 ≡ 0 → ⊥) → back.new ≡ back.old }
{
    let there = cable::scramble(history, words, cable);
    if there.is_err() {
        return (there, there);
    }
    let back = cable::unscramble(history, parts::part(cable, 0, words.len()), back);
    (there, back)
}
