// Verdicts written as sentences (document 02 [9]).
#![tactic(auto)]

mod members;
mod sentences;

ghost use Rattle.std.specs.Prelude.{◌≡◌};
ghost use Rattle.refusal.specs.Number.{outcome_number};
ghost use Rattle.refusal.specs.Order.{answer_of, afterwards};
ghost use Rattle.sentence.specs.Sentence.{sentence_of, sentence_refusal, padded};

use refusal::Refusal;
use sentence::{SENTENCE, Said};
use sentence_words::Text;

// The sentence of what a verdict says, and zeros behind it. Refused with 7: a buffer that is not 200 bytes.
pub fn write(out: &mut [u8], said: Said) -> Result<(), Refusal>
    ensures answer { outcome_number result ≡ answer_of (sentence_refusal out.old) }
    ensures bytes { out.new ≡ afterwards (sentence_refusal out.old) (padded (sentence_of said)) out.old }
{
    if out.len() != SENTENCE {
        return Err(Refusal::Length);
    }
    let mut text = Text::new();
    sentences::put(&mut text, said);
    octets::put(out, 0, text.as_padded());
    Ok(())
}
