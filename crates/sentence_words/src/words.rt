// The words of a kind and of a refusal, by their numbers: C's calls take any number, and what has no word is unknown.
// Matches and no arrays of texts: they read as the tables of docs/SENTENCES, without places for the numbers that are not used.
ghost use Rattle.std.specs.Prelude.{◌≡◌, ◌≤◌, length};
ghost use Rattle.sentence.specs.Text.{ascii};
ghost use Rattle.sentence.specs.Words.{word_at, kind_words, refusal_words, reason};

use sentence::Subject;

// The word of a kind.
pub fn kind_word(kind: u64) -> &'static [u8]
    ensures word { result.now ≡ ascii (word_at kind_words kind) }
    ensures short { length result.now ≤ 10 }
{
    match kind {
        0 => b"unassigned",
        1 => b"assigned",
        2 => b"skipped",
        3 => b"forgotten",
        _ => b"unknown",
    }
}

// The papers' word for a number returned.
fn refusal_word(number: u8) -> &'static [u8]
    ensures word { result.now ≡ ascii (word_at refusal_words number) }
    ensures short { length result.now ≤ 47 }
{
    match number {
        1 => b"torn",
        2 => b"no log",
        3 => b"position",
        4 => b"spent",
        5 => b"full",
        7 => b"length",
        8 => b"counts",
        9 => b"no receipt",
        10 => b"tag",
        11 => b"other question",
        12 => b"roster",
        13 => b"too few",
        14 => b"no run",
        15 => b"line",
        16 => b"promised",
        17 => b"profile",
        18 => b"survey",
        19 => b"seed",
        _ => b"unknown",
    }
}

// Why a receipt or a certificate is refused.
pub fn reason_words(subject: Subject, number: u8) -> &'static [u8]
    ensures words { result.now ≡ ascii (reason subject number) }
    ensures short { length result.now ≤ 47 }
{
    match (subject, number) {
        (Subject::Receipt, 7) => b"the key or nonce has a wrong length",
        (Subject::Receipt, 9) => b"it is not a possible receipt",
        (Subject::Receipt, 10) => b"its tag is wrong",
        (Subject::Receipt, 11) => b"it answers another question",
        (Subject::Certificate, 7) => b"the nonce has a wrong length",
        (Subject::Certificate, 9) => b"it is not a pile of whole receipts, or too long",
        (Subject::Certificate, 12) => b"the roster is not valid",
        (Subject::Certificate, 13) => b"too few members agree",
        (Subject::Certificate, 17) => b"the profile is not permitted",
        _ => refusal_word(number),
    }
}
