// A text as a sentence is written: words and numbers, each behind the last. First for a lent buffer, from any place on; each writer gives the
// place after what it wrote. Then a buffer with its length.
#![tactic(auto)]

mod words;

ghost use Rattle.std.specs.Prelude.{◌≡◌, ◌+◌, ◌≤◌, List, ℕ, [], ◌++◌, ◌-◌, length, take, drop};
ghost use Rattle.decimal.specs.Decimal.{decimal_of};
ghost use Rattle.sentence.specs.Text.{ascii};
ghost use Rattle.octets.specs.Octets.{splice, zeros};
ghost use Rattle.sentence.specs.Sentence.{padded};
ghost use Rattle.sentence.specs.Words.{reason};
ghost use Rattle.sentence.specs.declared.Subject.TheVariants.{Receipt, Certificate};
ghost use Rattle.sentence_words.specs.Kind.{kind_text};
ghost use Rattle.sentence_words.specs.declared.TheConstants.{ROOM};

use sentence::{SENTENCE, Subject};
use std::marker::Model;

// Words; the other writers put theirs by it.
pub fn put_words(out: &mut [u8], at: usize, words: &[u8]) -> usize
    requires { at + length words.now ≤ length out.old }
    ensures value { result ≡ at + length words.now }
    ensures out_after { out.new ≡ splice out.old at words.now }
{
    octets::put(out, at, words);
    at + words.len()
}

// Words and a number after them, which takes at most 20 digits.
pub fn put_number(out: &mut [u8], at: usize, words: &[u8], n: u64) -> usize
    requires { at + length words.now + 20 ≤ length out.old }
    ensures value { (result ≡ at + length (words.now ++ decimal_of n)) × (result ≤ at + length words.now + 20) }
    ensures out_after { out.new ≡ splice out.old at (words.now ++ decimal_of n) }
{
    let to = put_words(out, at, words);
    decimal::put(out, to, n)
}

// A kind by its word and its number: C passes any, here and below.
pub fn put_kind(out: &mut [u8], at: usize, kind: u64) -> usize
    requires { at + 41 ≤ length out.old }
    ensures value { (result ≡ at + length (kind_text kind)) × (result ≤ at + 41) }
    ensures out_after { out.new ≡ splice out.old at (kind_text kind) }
{
    let word = put_words(out, at, b" is ");
    let to = put_words(out, word, words::kind_word(kind));
    put_number(out, to, b" (kind ", kind)
}

// Why a receipt is refused.
pub fn put_receipt_reason(out: &mut [u8], at: usize, number: u8) -> usize
    requires { at + 47 ≤ length out.old }
    ensures value { (result ≡ at + length (ascii (reason Receipt number))) × (result ≤ at + 47) }
    ensures out_after { out.new ≡ splice out.old at (ascii (reason Receipt number)) }
{
    put_words(out, at, words::reason_words(Subject::Receipt, number))
}

// Why a certificate is refused.
pub fn put_certificate_reason(out: &mut [u8], at: usize, number: u8) -> usize
    requires { at + 47 ≤ length out.old }
    ensures value { (result ≡ at + length (ascii (reason Certificate number))) × (result ≤ at + 47) }
    ensures out_after { out.new ≡ splice out.old at (ascii (reason Certificate number)) }
{
    put_words(out, at, words::reason_words(Subject::Certificate, number))
}

// A sentence takes at most 200 bytes, and a number is written where 20 are free. With their length these are 256 bytes, which the compiler
// sets to zero in place: for more it makes a call of memset, and the archive for C may call memcpy alone.
pub const ROOM: usize = 248;

// The bytes written so far, and zeros behind them, which are a sentence's padding; a buffer and a length, since there is no heap.
// Not `Copy`: a large buffer.
#[derive(Drop)]
pub struct Text {
    bytes: [u8; ROOM],
    len: usize,
}

impl Model for Text {
    ghost Value = { List ℕ };

    ghost view = { λ t. take t.len t.bytes };

    ghost invariant = { λ t. (t.len ≤ ROOM) × (drop t.len t.bytes ≡ zeros (ROOM - t.len)) };
}

impl Text {
    pub fn new() -> Text
        ensures { result ≡ [] }
    {
        Text {
            bytes: [0; ROOM],
            len: 0,
        }
    }

    // With zeros up to the size of a sentence's buffer.
    pub fn as_padded(&self) -> &[u8]
        requires { length self.now ≤ SENTENCE }
        ensures { result.now ≡ padded self.now }
    {
        &self.bytes[..SENTENCE]
    }

    pub fn words(&mut self, words: &[u8])
        requires { length self.old + length words.now ≤ ROOM }
        ensures { self.new ≡ self.old ++ words.now }
    {
        octets::put(&mut self.bytes, self.len, words);
        self.len += words.len();
    }

    // A number takes at most 20 digits.
    pub fn number(&mut self, n: u64)
        requires { length self.old + 20 ≤ ROOM }
        ensures digits { self.new ≡ self.old ++ decimal_of n }
        ensures short { length self.new ≤ length self.old + 20 }
    {
        self.len = decimal::put(&mut self.bytes, self.len, n);
    }

    // A kind by its word and its number.
    pub fn kind(&mut self, kind: u64)
        requires { length self.old + 41 ≤ ROOM }
        ensures kind { self.new ≡ self.old ++ kind_text kind }
        ensures short { length self.new ≤ length self.old + 41 }
    {
        self.len = put_kind(&mut self.bytes, self.len, kind);
    }

    // Why a receipt or a certificate is refused.
    pub fn reason(&mut self, subject: Subject, number: u8)
        requires { length self.old + 47 ≤ ROOM }
        ensures reason { self.new ≡ self.old ++ ascii (reason subject number) }
        ensures short { length self.new ≤ length self.old + 47 }
    {
        self.words(words::reason_words(subject, number));
    }
}
