// The first place of a certificate whose pair is certified.
ghost use Rattle.std.specs.Prelude.{◌≡◌, ◌<◌, ◌≤◌, length};
ghost use Rattle.std.specs.List.{concat};
ghost use Rattle.quorum.specs.Certificate.{pair_at};
ghost use Rattle.quorum.specs.Tally.{Bounded};

use octets::equal;
use quorum::Certified;
use receipt_fields::pair_of;

// Value and digest of the receipt at place p. The receipts are a parameter here: of a struct's field the proof does not know that each has 160
// bytes.
fn pair_at(receipts: &[[u8; 160]], p: usize) -> &[u8; 64]
    requires { p < length receipts.now }
    ensures { result.now ≡ pair_at (concat receipts.now) p }
{
    pair_of(&receipts[p])
}

// A certificate that is read: its receipts, and for each place the member by which its receipt is good.
#[derive(Clone, Copy)]
pub struct Certificate<'a> {
    pub receipts: &'a [[u8; 160]],
    pub members: &'a [Option<u8>; 32],
    pub ghost few: { length receipts.now ≤ 32 },
    pub ghost bounded: { Bounded members.now (length receipts.now) },
}

impl Certificate<'_> {
    ghost use Rattle.quorum.specs.Tally.{mask_at, tried_at, first_in, found_answer};

    // The members that show the pair of place p, one bit each; the lowest bit is item 0's.
    fn mask(self, p: usize) -> u32
        requires { p < length self.receipts.now }
        ensures { result ≡ mask_at self.entry.members.now (concat self.entry.receipts.now) (length self.entry.receipts.now) p }
    {
        let pair = pair_at(self.receipts, p);
        let mut mask: u32 = 0;
        for q in 0..self.receipts.len() {
            if let Some(i) = self.members[q] {
                if equal(pair_at(self.receipts, q), pair) {
                    mask |= 1 << i;
                }
            }
        }
        mask
    }

    // The mask of place p, if its receipt is good and `need` members show its pair.
    fn try_place(self, need: u32, p: usize) -> Option<u32>
        requires { p < length self.receipts.now }
        ensures { result ≡ tried_at self.entry.members.now (concat self.entry.receipts.now) need (length self.entry.receipts.now) p }
    {
        self.members[p]?;
        let mask = self.mask(p);
        (need <= mask.count_ones()).then_some(mask)
    }

    // The first good receipt whose pair is certified.
    pub fn first_place(self, need: u32) -> Option<Certified>
        ensures { found_answer result ≡ first_in self.entry.members.now (concat self.entry.receipts.now) need (length self.entry.receipts.now) (length self.entry.receipts.now) 0 }
    {
        for place in 0..self.receipts.len() {
            if let Some(mask) = self.try_place(need, place) {
                return Some(Certified { place, mask });
            }
        }
        None
    }
}
