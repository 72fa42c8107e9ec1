// The verdict on a certificate: the refusals, the tally, and the first place whose pair is certified.
#![tactic(auto)]

mod places;

ghost use Rattle.std.specs.Prelude.{◌≡◌};
ghost use Rattle.quorum.specs.Certificate.{certificate, station_answer, certificate_blocks, station_blocks, NamesExactly};

use places::Certificate;
use quorum::{Certified, receipts_in};
use quorum_tally::tally_of;
use refusal::{Hashed, Refusal, Refused};
use roster::{is_permitted, items};

// The verdict on a certificate of a station of `members` keepers, of which `needed` must agree. Refused with 7: a nonce of another
// length than 32; 17: no such profile; 12: no roster of so many members; 9: not 0 to 32 whole receipts; 13: no pair is certified. The
// parameters stand as C passes them; nonce, log and position are no `Question`, whose keeper each receipt gives.
pub fn certify(
    members: u64,
    needed: u64,
    roster: &[u8],
    nonce: &[u8],
    log: u64,
    position: u64,
    cert: &[u8],
) -> Result<Hashed<Certified>, Refused>
    ensures answer { station_answer result ≡ certificate members needed roster.now nonce.now log position cert.now }
    ensures exactly { NamesExactly members needed roster.now nonce.now log position cert.now (station_answer result) }
    ensures blocks { station_blocks result ≡ certificate_blocks members needed roster.now nonce.now cert.now }
{
    let nonce = nonce.as_array::<32>().ok_or(Refusal::Length)?;
    if !is_permitted(members, needed) {
        return Err(Refusal::Profile.into());
    }
    let items = items(members, roster).ok_or(Refusal::Roster)?;
    let receipts = receipts_in(cert).ok_or(Refusal::NoReceipt)?;
    let tally = tally_of(items, nonce, log, position, receipts);
    let blocks = tally.blocks;
    let read = Certificate {
        receipts,
        members: &tally.value,
    };
    let Some(value) = read.first_place(needed as u32) else {
        return Err(Refused {
            why: Refusal::TooFew,
            blocks,
        });
    };
    Ok(Hashed { value, blocks })
}
