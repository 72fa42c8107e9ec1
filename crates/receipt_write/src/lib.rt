// The writer of receipts: each part into its place, the tag last.
#![tactic(auto)]

ghost use Rattle.std.specs.Prelude.{◌≡◌, length};
ghost use Rattle.refusal.specs.Order.{answer_of, afterwards};
ghost use Rattle.refusal.specs.Work.{worked_number, worked_blocks};
ghost use Rattle.hmac.specs.Hmac.{hmac};
ghost use Rattle.octets.specs.Octets.{part, splice};
ghost use Rattle.receipt.specs.Attestation.{attested_bytes, receipt_bytes};
ghost use Rattle.receipt.specs.Writer.{name_bytes, fact_bytes, attestation_of, attested_said, write_refusal};

use bigendian::put_number;
use hmac::tag;
use octets::{put, put_array};
use receipt::{Attested, Facts, Name};
use refusal::{Hashed, Refusal, Refused, worked_blocks};

// Stores the name in bytes 0 to 5.
#[tactic(auto, unfolding(receipt::specs::Writer::name_bytes, receipt::specs::Attestation::LOOKUP, receipt::specs::Attestation::END))]
fn put_name(out: &mut [u8; 160], name: Name)
    ensures { out.new ≡ splice out.old 0 (name_bytes name) }
{
    match name {
        Name::Lookup => put(out, 0, b"LOOKUP"),
        Name::End => put(out, 0, b"END\0\0\0"),
    }
}

// Writes bytes 0 to 31.
fn put_facts(out: &mut [u8; 160], f: Facts)
    ensures { out.new ≡ splice out.old 0 (fact_bytes f) }
{
    put_name(out, f.name);
    put(out, 6, &[f.kind, f.log]);
    put_number::<8>(out, 8, f.keeper);
    put_number::<8>(out, 16, f.position);
    put_number::<8>(out, 24, f.reference);
}

// Writes bytes 0 to 127.
fn put_attested(out: &mut [u8; 160], a: Attested)
    ensures bytes { out.new ≡ splice out.old 0 (attested_bytes (attested_said a.entry)) }
    ensures size { length (attested_bytes (attested_said a.entry)) ≡ 128 }
{
    put_facts(out, a.facts);
    put_array::<32>(out, 32, a.nonce);
    put_array::<32>(out, 64, a.value);
    put_array::<32>(out, 96, a.digest);
}

// Writes the tag of bytes 0 to 127, the tag writer being lent bytes 128 to 159, and hands on the blocks that it hashed.
fn put_tag(out: &mut [u8; 160], key: &[u8; 32]) -> u64
    ensures blocks { result ≡ 6 }
    ensures bytes { out.new ≡ splice out.old 128 (hmac key.now (part out.old 0 128)) }
{
    let (attested, place) = out.split_at_mut(128);
    let done = tag(key, attested, place);
    worked_blocks(&done)
}

// Writes a receipt's 160 bytes, and hands on the blocks hashed for its tag; the caller has seen to the lengths.
pub fn put_receipt(out: &mut [u8; 160], key: &[u8; 32], a: Attested) -> u64
    ensures blocks { result ≡ 6 }
    ensures bytes { out.new ≡ receipt_bytes key.now (attested_said a.entry) }
{
    put_attested(out, a);
    put_tag(out, key)
}

// Writes a receipt. Refused with 7, the buffer as it was: key, nonce, value, digest or the buffer of another length than
// its own.
pub fn write(
    out: &mut [u8],
    key: &[u8],
    facts: Facts,
    nonce: &[u8],
    value: &[u8],
    digest: &[u8],
) -> Result<Hashed<()>, Refused>
    ensures answer { worked_number result ≡ answer_of (write_refusal key.now nonce.now value.now digest.now out.old) }
    ensures blocks { worked_blocks result ≡ afterwards (write_refusal key.now nonce.now value.now digest.now out.old) 6 0 }
    ensures bytes { out.new ≡ afterwards (write_refusal key.now nonce.now value.now digest.now out.old) (receipt_bytes key.now (attestation_of facts nonce.now value.now digest.now)) out.old }
{
    let key = key.as_array::<32>().ok_or(Refusal::Length)?;
    let nonce = nonce.as_array::<32>().ok_or(Refusal::Length)?;
    let value = value.as_array::<32>().ok_or(Refusal::Length)?;
    let digest = digest.as_array::<32>().ok_or(Refusal::Length)?;
    let out = out.as_mut_array::<160>().ok_or(Refusal::Length)?;
    let attested = Attested {
        facts,
        nonce,
        value,
        digest,
    };
    let blocks = put_receipt(out, key, attested);
    Ok(Hashed { value: (), blocks })
}
