// The member list of a certificate.
ghost use Rattle.std.specs.Prelude.{◌≡◌, ◌+◌, ◌≤◌, ◌++◌, length};
ghost use Rattle.sentence.specs.Text.{text_of};
ghost use Rattle.sentence.specs.Sentence.{members_below, agreed};

use sentence_words::{ROOM, Text};

// The members of a mask: the places of its bits, each with what leads to it.
pub fn put(text: &mut Text, mask: u32)
    requires { length text.old + 186 ≤ ROOM }
    ensures list { text.new ≡ text.old ++ text_of (agreed (members_below 32 mask)) }
    ensures short { length text.new ≤ length text.old + 146 }
{
    let all = mask.count_ones();
    if all == 0 {
        text.words(b", agreed by none");
        return;
    }
    let mut lead: &[u8] = if all == 1 {
        b", agreed by member "
    } else {
        b", agreed by members "
    };
    for i in 0..u32::BITS {
        if mask >> i & 1 == 1 {
            text.words(lead);
            text.number(i as u64);
            lead = b", ";
        }
    }
}
