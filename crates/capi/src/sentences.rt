// Verdicts in words.
ghost use Rattle.std.specs.Prelude.{◌≡◌, [], ◌∷◌};
ghost use Rattle.refusal.specs.Answer.{answer};
ghost use Rattle.refusal.specs.Order.{answer_of, afterwards};
ghost use Rattle.sentence.specs.Sentence.{receipt_said, station_said, sentence_of, sentence_refusal, padded};

use refusal::outcome_number;
use sentence::Said;

// The verdict is C's keeper_verdict, as the verifier fills it.
#[unsafe(no_mangle)]
pub extern "C" fn keeper_receipt_sentence(number: u8, verdict: &[u64; 5], sentence: &mut [u8]) -> u8
    ensures answer { result ≡ answer_of (sentence_refusal sentence.old) }
    ensures bytes { sentence.new ≡ afterwards (sentence_refusal sentence.old) (padded (sentence_of (receipt_said (answer number verdict.now)))) sentence.old }
{
    let said = Said::of_receipt(number, verdict);
    outcome_number(sentence_write::write(sentence, said))
}

#[unsafe(no_mangle)]
pub extern "C" fn keeper_certificate_sentence(
    number: u8,
    place: u64,
    mask: u32,
    sentence: &mut [u8],
) -> u8
    ensures answer { result ≡ answer_of (sentence_refusal sentence.old) }
    ensures bytes { sentence.new ≡ afterwards (sentence_refusal sentence.old) (padded (sentence_of (station_said (answer number (place ∷ mask ∷ []))))) sentence.old }
{
    let said = Said::of_certificate(number, place, mask);
    outcome_number(sentence_write::write(sentence, said))
}
