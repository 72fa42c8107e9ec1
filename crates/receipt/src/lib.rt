// Receipts (document 01, "Receipt bytes"): what their bytes say, which are possible, and the verdict on one. No code but the numbers of kinds.
#![tactic(auto)]

ghost use Rattle.std.specs.Prelude.{◌≡◌};
ghost use Rattle.receipt.specs.Kind.{kind_number, IsKindOf};

use refusal::Refusal;

// The name in a receipt's bytes 0 to 5.
#[derive(Clone, Copy, PartialEq, Eq)]
pub enum Name {
    Lookup,
    End,
}

// What became of a position, by the number in a receipt's byte 6.
#[derive(Clone, Copy, PartialEq, Eq)]
pub enum Kind {
    Unassigned,
    Assigned,
    Skipped,
    Forgotten,
}

impl From<Kind> for u8 {
    ghost from_gives = { λ kind n. n ≡ kind_number kind };

    fn from(kind: Kind) -> u8 {
        match kind {
            Kind::Unassigned => 0,
            Kind::Assigned => 1,
            Kind::Skipped => 2,
            Kind::Forgotten => 3,
        }
    }
}

// A byte that is no kind's number makes a receipt that attests nothing possible.
impl TryFrom<u8> for Kind {
    type Error = Refusal;

    ghost try_from_gives = { IsKindOf };

    fn try_from(n: u8) -> Result<Kind, Refusal> {
        match n {
            0 => Ok(Kind::Unassigned),
            1 => Ok(Kind::Assigned),
            2 => Ok(Kind::Skipped),
            3 => Ok(Kind::Forgotten),
            _ => Err(Refusal::NoReceipt),
        }
    }
}

// What a receipt says in numbers. The kind is one too: `receipt_write: write` is a call of the product, and its contract refuses no kind.
// The cases write receipts of kinds that there are not, to see them refused.
#[derive(Clone, Copy)]
pub struct Facts {
    pub name: Name,
    pub kind: u8,
    pub log: u8,
    pub keeper: u64,
    pub position: u64,
    pub reference: u64,
}

// All that a receipt says before its tag, the nonce, value and digest lent.
#[derive(Clone, Copy)]
pub struct Attested<'a> {
    pub facts: Facts,
    pub nonce: &'a [u8; 32],
    pub value: &'a [u8; 32],
    pub digest: &'a [u8; 32],
}

// A question's LOOKUP of a position, or END; no Option, since END is a question of its own and not the want of a position.
#[derive(Clone, Copy)]
pub enum Ask {
    Lookup(u64),
    End,
}

// A question. Its nonce stands beside it: the verifier is lent one of any length, and looks at the question once that is an array.
#[derive(Clone, Copy)]
pub struct Question {
    pub keeper: u64,
    pub log: u64,
    pub ask: Ask,
}

// What an accepted receipt carries.
#[derive(Clone, Copy)]
pub struct Accepted {
    pub keeper: u64,
    pub log: u8,
    pub position: u64,
    pub kind: Kind,
    pub reference: u64,
}
