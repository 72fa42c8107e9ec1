// The sentences, each from the start of a text on.
ghost use Rattle.std.specs.Prelude.{◌≡◌, ◌≤◌, [], length};
ghost use Rattle.sentence.specs.Text.{ascii};
ghost use Rattle.sentence.specs.Sentence.{beginning, sentence_of};

use super::members;
use sentence::{Said, Subject};
use sentence_words::Text;

fn beginning(subject: Subject) -> &'static [u8]
    ensures words { result.now ≡ ascii (beginning subject) }
    ensures short { length result.now ≤ 28 }
{
    match subject {
        Subject::Receipt => b"The receipt is refused (",
        Subject::Certificate => b"The certificate is refused (",
    }
}

pub fn put(text: &mut Text, said: Said)
    requires { text.old ≡ [] }
    ensures { text.new ≡ sentence_of said }
{
    match said {
        Said::Accepted {
            keeper,
            log,
            position,
            kind,
            reference,
        } => {
            text.words(b"The receipt is accepted (0): keeper ");
            text.number(keeper);
            text.words(b" says of log ");
            text.number(log);
            text.words(b" that position ");
            text.number(position);
            text.kind(kind);
            text.words(b"), reference ");
            text.number(reference);
            text.words(b".");
        }
        Said::Certified { place, mask } => {
            text.words(b"The certificate stands (0) on receipt ");
            text.number(place);
            members::put(text, mask);
            text.words(b".");
        }
        Said::Refused { subject, number } => {
            text.words(beginning(subject));
            text.number(number as u64);
            text.words(b"): ");
            text.reason(subject, number);
            text.words(b".");
        }
    }
}
