// Why a call is refused: document 01's "Numbers returned" and those of document 02, a variant for each of their words but "nothing
// held", which no call answers any more (document 02 [6]). Its number, 6, "is not used again".
#![tactic(auto)]

ghost use Rattle.std.specs.Prelude.{◌≡◌};
ghost use Rattle.refusal.specs.Number.{number_of, outcome_number};
ghost use Rattle.refusal.specs.Work.{unhashed, worked_number, worked_blocks};

#[derive(Clone, Copy, PartialEq, Eq)]
pub enum Refusal {
    Torn,
    NoLog,
    Position,
    Spent,
    Full,
    Length,
    Counts,
    NoReceipt,
    Tag,
    OtherQuestion,
    Roster,
    TooFew,
    NoRun,
    Line,
    Promised,
    Profile,
    Survey,
    Seed,
}

// Document 01's number.
impl From<Refusal> for u8 {
    ghost from_gives = { λ why n. n ≡ number_of why };

    fn from(why: Refusal) -> u8 {
        match why {
            Refusal::Torn => 1,
            Refusal::NoLog => 2,
            Refusal::Position => 3,
            Refusal::Spent => 4,
            Refusal::Full => 5,
            Refusal::Length => 7,
            Refusal::Counts => 8,
            Refusal::NoReceipt => 9,
            Refusal::Tag => 10,
            Refusal::OtherQuestion => 11,
            Refusal::Roster => 12,
            Refusal::TooFew => 13,
            Refusal::NoRun => 14,
            Refusal::Line => 15,
            Refusal::Promised => 16,
            Refusal::Profile => 17,
            Refusal::Survey => 18,
            Refusal::Seed => 19,
        }
    }
}

// A value, and how many 64-byte blocks were compressed for it (document 02 [2]). A call that counts them and returns nothing else has
// the value ().
#[derive(Clone, Copy)]
pub struct Hashed<T> {
    pub value: T,
    pub blocks: u64,
}

// Why a call that counts blocks is refused, and the blocks hashed until then: document 02 [2], "a refusal returns its number with them".
#[derive(Clone, Copy, PartialEq, Eq)]
pub struct Refused {
    pub why: Refusal,
    pub blocks: u64,
}

// "0 .. for whatever is refused before it hashes".
impl From<Refusal> for Refused {
    ghost from_gives = { λ why refused. refused ≡ unhashed why };

    fn from(why: Refusal) -> Refused {
        Refused { why, blocks: 0 }
    }
}

// Document 01's number of a call that returns nothing else: 0 for done.
pub fn outcome_number(outcome: Result<(), Refusal>) -> u8
    ensures { result ≡ outcome_number outcome }
{
    match outcome {
        Ok(()) => 0,
        Err(why) => u8::from(why),
    }
}

// Document 01's number of a call that counts blocks: 0 for done.
pub fn worked_number<T>(answer: &Result<Hashed<T>, Refused>) -> u8
    ensures { result ≡ worked_number answer.now }
{
    match answer {
        Ok(_) => 0,
        Err(refused) => u8::from(refused.why),
    }
}

// The blocks that it hashed, done or refused.
pub fn worked_blocks<T>(answer: &Result<Hashed<T>, Refused>) -> u64
    ensures { result ≡ worked_blocks answer.now }
{
    match answer {
        Ok(done) => done.blocks,
        Err(refused) => refused.blocks,
    }
}
