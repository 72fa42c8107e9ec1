// Verdicts as English sentences (document 02 [9]): what a sentence says, and in specs/ and proofs/ the wording and what is proved of it.
#![tactic(auto)]

ghost use Rattle.std.specs.Prelude.{◌≡◌, [], ◌∷◌};
ghost use Rattle.refusal.specs.Answer.{answer};
ghost use Rattle.receipt.specs.Verdict.{verdict_answer};
ghost use Rattle.quorum.specs.Certificate.{station_answer};
ghost use Rattle.sentence.specs.Sentence.{receipt_said, station_said};

use quorum::Certified;
use receipt::Accepted;
use refusal::{Hashed, Refused};

// The bytes that a sentence is written into.
pub const SENTENCE: usize = 200;

// What a verdict is on.
#[derive(Clone, Copy)]
pub enum Subject {
    Receipt,
    Certificate,
}

// "A receipt verdict carries keeper, log, position, kind and reference; a certificate verdict carries the receipt's place and the member list ..; a
// refused one carries its number". A kind and a refusal are numbers: the calls for C take any, and a sentence shows it. No `Result`: a
// refusal is said too.
#[derive(Clone, Copy)]
pub enum Said {
    Accepted {
        keeper: u64,
        log: u64,
        position: u64,
        kind: u64,
        reference: u64,
    },
    Certified {
        place: u64,
        mask: u32,
    },
    Refused {
        subject: Subject,
        number: u8,
    },
}

impl Said {
    // Of the verifier's answer: its number, and the values that come with 0.
    pub fn of_receipt(number: u8, values: &[u64; 5]) -> Said
        ensures { result ≡ receipt_said (answer number values.now) }
    {
        if number != 0 {
            return Said::Refused {
                subject: Subject::Receipt,
                number,
            };
        }
        let &[keeper, log, position, kind, reference] = values;
        Said::Accepted {
            keeper,
            log,
            position,
            kind,
            reference,
        }
    }

    // Of the answer on a certificate: its number, and the place and members that come with 0.
    pub fn of_certificate(number: u8, place: u64, mask: u32) -> Said
        ensures { result ≡ station_said (answer number (place ∷ mask ∷ [])) }
    {
        if number != 0 {
            return Said::Refused {
                subject: Subject::Certificate,
                number,
            };
        }
        Said::Certified { place, mask }
    }
}

impl From<Result<Hashed<Accepted>, Refused>> for Said {
    ghost from_gives = { λ verdict said. said ≡ receipt_said (verdict_answer verdict) };

    fn from(verdict: Result<Hashed<Accepted>, Refused>) -> Said {
        match verdict {
            Ok(Hashed { value, .. }) => Said::Accepted {
                keeper: value.keeper,
                log: value.log as u64,
                position: value.position,
                kind: value.kind as u64,
                reference: value.reference,
            },
            Err(refused) => Said::Refused {
                subject: Subject::Receipt,
                number: u8::from(refused.why),
            },
        }
    }
}

impl From<Result<Hashed<Certified>, Refused>> for Said {
    ghost from_gives = { λ station said. said ≡ station_said (station_answer station) };

    fn from(station: Result<Hashed<Certified>, Refused>) -> Said {
        match station {
            Ok(Hashed { value, .. }) => Said::Certified {
                place: value.place as u64,
                mask: value.mask,
            },
            Err(refused) => Said::Refused {
                subject: Subject::Certificate,
                number: u8::from(refused.why),
            },
        }
    }
}
