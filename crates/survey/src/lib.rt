// Surveys: a survey number of 24 bits and a reading number of 40 bits make a position.
#![tactic(auto)]

ghost use Rattle.std.specs.Prelude.{◌≡◌};
ghost use Rattle.survey.specs.Packing.{packing, packing_answer, last_reading, survey_of, reading_of};

use refusal::Refusal;

#[derive(Clone, Copy, PartialEq, Eq)]
pub struct Survey(pub u64);

#[derive(Clone, Copy, PartialEq, Eq)]
pub struct Reading(pub u64);

#[derive(Clone, Copy, PartialEq, Eq)]
pub struct Packed(pub u64);

// A position split back.
#[derive(Clone, Copy, PartialEq, Eq)]
pub struct Place {
    pub survey: Survey,
    pub reading: Reading,
}

const SURVEYS: u64 = 16777216;

const READINGS: u64 = 1099511627776;

// The position of a reading of a survey. Refused with 18: a number too wide for its part. The two are given one by one and not as a
// Place: a close has a survey alone, and C passes numbers.
pub fn pack(survey: Survey, reading: Reading) -> Result<Packed, Refusal>
    ensures { packing_answer result ≡ packing survey.0 reading.0 }
{
    if SURVEYS <= survey.0 || READINGS <= reading.0 {
        return Err(Refusal::Survey);
    }
    Ok(Packed(survey.0 * READINGS + reading.0))
}

// The survey and the reading of a position.
pub fn split(position: Packed) -> Place
    ensures { (result.survey.0 ≡ survey_of position.0) × (result.reading.0 ≡ reading_of position.0) }
{
    let n = position.0;
    Place {
        survey: Survey(n / READINGS),
        reading: Reading(n % READINGS),
    }
}

// The reading that closes a survey: the last of its 40 bits.
pub fn last_reading() -> Reading
    ensures { result.0 ≡ last_reading }
{
    Reading(READINGS - 1)
}
