// The tally: counts of what happens, and the verdict that follows.
#![tactic(auto)]

ghost use Rattle.std.specs.Prelude.{◌≡◌};
ghost use Rattle.judging.specs.Happening.{happenings};
ghost use Rattle.tally.specs.Tally.{is_fault, is_row, label, label_for, no_counts, raised, tallied, verdict_of};

use judging::Happening;

// Rows whose CRC could be judged, and faults.
#[derive(Clone, Copy)]
pub struct Counts {
    pub rows: u32,
    pub faults: u32,
}

// `Refused` is for where no session told; no label has a word for it.
#[derive(Clone, Copy)]
pub enum Verdict {
    Refused,
    NoSignal,
    Fail,
    Short,
    Pass,
}

impl Counts {
    // Both counts stay here once there.
    pub const CEILING: u32 = u32::MAX;

    // Where every module starts.
    pub fn none() -> Counts
        ensures { result ≡ no_counts }
    {
        Counts { rows: 0, faults: 0 }
    }
}

// One more, up to the ceiling.
fn raise(one: bool, n: u32) -> u32
    ensures { result ≡ raised one n }
{
    n.saturating_add(u32::from(one)).min(Counts::CEILING)
}

// Whether a happening is a row that counts.
fn is_row(happening: Happening) -> bool
    ensures { result ≡ is_row happening }
{
    matches!(happening, Happening::RowJudged(_, _, true))
}

// Whether a happening is a fault.
fn is_fault(happening: Happening) -> bool
    ensures { result ≡ is_fault happening }
{
    !matches!(happening, Happening::Quiet | Happening::RowJudged(_, 0, _))
}

// The counts after a happening.
#[tactic(auto, unfolding(crate::specs::Tally::tallied))]
pub fn tally(happening: Happening, counts: Counts) -> Counts
    ensures { result ≡ tallied (happenings happening) counts }
{
    Counts {
        rows: raise(is_row(happening), counts.rows),
        faults: raise(is_fault(happening), counts.faults),
    }
}

// The verdict of a module's counts under N.
pub fn verdict_of(seen: bool, lines: u32, counts: Counts) -> Verdict
    ensures answer { result ≡ verdict_of seen lines counts }
    ensures means { label result ≡ label_for seen lines counts }
{
    if !seen {
        Verdict::NoSignal
    } else if counts.faults != 0 {
        Verdict::Fail
    } else if counts.rows < lines {
        Verdict::Short
    } else {
        Verdict::Pass
    }
}
