// The fields of a receipt, read from its bytes: a function each, since a contract names its field. The name is compared as fixed bytes,
// as document 01 has it, so there are two tests and no reading of it.
#![tactic(auto, unfolding(receipt::specs::Attestation::read_attestation, receipt::specs::Attestation::LOOKUP, receipt::specs::Attestation::END))]

ghost use Rattle.std.specs.Prelude.{◌≡◌};
ghost use Rattle.octets.specs.Octets.{same};
ghost use Rattle.receipt.specs.Attestation.{LOOKUP, END, read_attestation, pair_in, attested_in, tag_in};

use bigendian::number_at;
use octets::{array_at, equal};

// Whether the name is LOOKUP.
pub fn is_lookup(r: &[u8; 160]) -> bool
    ensures { result ≡ same (read_attestation r.now).name LOOKUP }
{
    equal(&r[0..6], b"LOOKUP")
}

// Whether the name is END, with three zero bytes.
pub fn is_end(r: &[u8; 160]) -> bool
    ensures { result ≡ same (read_attestation r.now).name END }
{
    equal(&r[0..6], b"END\0\0\0")
}

pub fn kind_of(r: &[u8; 160]) -> u8
    ensures { result ≡ (read_attestation r.now).kind }
{
    r[6]
}

pub fn log_of(r: &[u8; 160]) -> u8
    ensures { result ≡ (read_attestation r.now).log }
{
    r[7]
}

pub fn keeper_of(r: &[u8; 160]) -> u64
    ensures { result ≡ (read_attestation r.now).keeper }
{
    number_at::<8>(r, 8)
}

pub fn position_of(r: &[u8; 160]) -> u64
    ensures { result ≡ (read_attestation r.now).position }
{
    number_at::<8>(r, 16)
}

pub fn reference_of(r: &[u8; 160]) -> u64
    ensures { result ≡ (read_attestation r.now).reference }
{
    number_at::<8>(r, 24)
}

pub fn nonce_of(r: &[u8; 160]) -> &[u8; 32]
    ensures { result.now ≡ (read_attestation r.now).nonce }
{
    array_at::<32>(r, 32)
}

pub fn value_of(r: &[u8; 160]) -> &[u8; 32]
    ensures { result.now ≡ (read_attestation r.now).value }
{
    array_at::<32>(r, 64)
}

pub fn digest_of(r: &[u8; 160]) -> &[u8; 32]
    ensures { result.now ≡ (read_attestation r.now).digest }
{
    array_at::<32>(r, 96)
}

// Value and digest, which stand on end.
pub fn pair_of(r: &[u8; 160]) -> &[u8; 64]
    ensures { result.now ≡ pair_in r.now }
{
    array_at::<64>(r, 64)
}

// What the tag is over.
pub fn attested_of(r: &[u8; 160]) -> &[u8; 128]
    ensures { result.now ≡ attested_in r.now }
{
    array_at::<128>(r, 0)
}

pub fn tag_of(r: &[u8; 160]) -> &[u8; 32]
    ensures { result.now ≡ tag_in r.now }
{
    array_at::<32>(r, 128)
}
