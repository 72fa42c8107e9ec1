// Runs, and what their comparison says (document 01, "Runs").
#![tactic(auto)]

ghost use Rattle.std.specs.Prelude.{◌≡◌, ◌+◌, ◌/◌, ◌<◌, length};
ghost use Rattle.runs.specs.Run.{Reaches};
ghost use Rattle.runs.specs.Call.{verdict_code, verdict_named};

// A run as it is lent: a start digest, a first position, and values, 32 bytes each.
#[derive(Clone, Copy)]
pub struct Run<'a> {
    pub start: &'a [u8],
    pub first: u64,
    pub values: &'a [u8],
}

// A run that refusals 7 and 14 do not turn away, as the pass reads it: its values' positions fit.
#[derive(Clone, Copy)]
pub struct WholeRun<'a> {
    pub start: &'a [u8; 32],
    pub first: u64,
    pub values: &'a [u8],
    ghost reaches: { Reaches first values.now (length values.now / 32) },
}

impl<'a> WholeRun<'a> {
    ghost use Rattle.runs.specs.Run.{count, value_at};
    ghost use Rattle.runs.specs.Lent.{whole};

    // The number of values.
    #[tactic(auto, unfolding(crate::specs::Run::count))]
    pub fn count(&self) -> usize
        ensures { result ≡ count (whole self.now) }
    {
        self.values.len() / 32
    }

    // The position of value k, counted from 0.
    #[tactic(auto, unfolding(crate::specs::Run::count))]
    pub fn position(&self, k: usize) -> u64
        requires { k < count (whole self.now) }
        ensures { result ≡ self.now.first + k }
    {
        self.first + k as u64
    }

    // Value k.
    #[tactic(auto, unfolding(crate::specs::Run::count))]
    pub fn value(&self, k: usize) -> &'a [u8; 32]
        requires { k < count (whole self.now) }
        ensures { result.now ≡ value_at (whole self.now) k }
    {
        self.values[k * 32..].first_chunk().unwrap()
    }
}

// The verdict on two runs.
#[derive(Clone, Copy, PartialEq, Eq)]
pub enum Comparison {
    Differ,
    Agree,
    Collision,
}

// Its code for C.
impl From<Comparison> for u8 {
    ghost from_gives = { λ verdict n. n ≡ verdict_code (verdict_named verdict) };

    fn from(verdict: Comparison) -> u8 {
        match verdict {
            Comparison::Differ => 0,
            Comparison::Agree => 1,
            Comparison::Collision => 2,
        }
    }
}

// The unequal pair of blocks nearest the ends: the place of its value in each run, and the digest before it. Fields by number, here and
// below, and no arrays of two: contracts name each run.
#[derive(Clone, Copy)]
pub struct UnequalPair {
    pub at1: usize,
    pub at2: usize,
    pub before1: [u8; 32],
    pub before2: [u8; 32],
}

// Both runs walked: the digest after each, the blocks hashed, and the unequal pair nearest the ends, if there is one. Made once, behind
// the loop of runs_scan: copied in every turn, it took ten times the code.
#[derive(Clone, Copy)]
pub struct Scan {
    pub digest1: [u8; 32],
    pub digest2: [u8; 32],
    pub blocks: u64,
    pub unequal: Option<UnequalPair>,
}
