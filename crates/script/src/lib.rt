// Scripts (document 01, "The script program"): a line is answered, and what it says is done to a table; a script may come in pieces.
#![tactic(auto)]

ghost use Rattle.std.specs.Prelude.{◌≡◌};
ghost use Rattle.refusal.specs.Number.{number_of};
ghost use Rattle.script.specs.declared.Answer.TheVariants.{Plain};

use refusal::Refusal;

// What a line is answered, as the columns of its answer say it: a number alone; with its log's low and high position; or 0 with these
// and what a receipt says. Numbers, and no `Result`: a refused call has a row's columns too, and a kind is the letter of its column.
#[derive(Clone, Copy)]
pub enum Answer {
    Plain(u64),
    Bounded {
        number: u64,
        low: u64,
        high: u64,
    },
    Attested {
        kind: u8,
        position: u64,
        reference: u64,
        value: u64,
        low: u64,
        high: u64,
    },
}

// A refusal's number alone.
impl From<Refusal> for Answer {
    ghost from_gives = { λ why a. a ≡ Plain (number_of why) };

    fn from(why: Refusal) -> Self {
        Answer::Plain(u8::from(why) as u64)
    }
}
