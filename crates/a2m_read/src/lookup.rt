// Lookup.
ghost use Rattle.std.specs.Prelude.{◌≡◌, length};
ghost use Rattle.a2m.specs.Call.{lookup as looks};
ghost use Rattle.a2m.specs.TableCalls.{table_step};
ghost use Rattle.a2m.specs.Opened.{Looked};

use a2m::OpenTable;
use a2m_attest::attest::attest;
use a2m_attest::search::find;
use a2m_open::open;
use layout::TableRef;
use layout_header::keeper_of;
use receipt::{Facts, Name};
use refusal::{Hashed, Refusal, Refused};

// Refusal 3, and the receipt of what stands at the position.
fn lookup_open(
    opened: OpenTable,
    position: u64,
    nonce: &[u8; 32],
    receipt: &mut [u8; 160],
) -> Result<Hashed<u64>, Refused>
    ensures { Looked (table_step opened.entry.table.now (looks opened.entry.view.log position nonce.now (length receipt.old))) result receipt.old receipt.new }
{
    if position == 0 {
        return Err(Refusal::Position.into());
    }
    let OpenTable { table, view } = opened;
    let hit = find(opened, position);
    let facts = Facts {
        name: Name::Lookup,
        kind: u8::from(hit.kind),
        log: view.log as u8,
        keeper: keeper_of(table),
        position,
        reference: hit.reference,
    };
    let lent = TableRef {
        table,
        counts: view.counts,
    };
    let blocks = attest(lent, hit.slot, facts, nonce, receipt);
    Ok(Hashed {
        value: hit.examined,
        blocks,
    })
}

// A lookup whose nonce and receipt have their lengths.
pub fn lookup_sized(
    table: &[u8],
    log: u64,
    position: u64,
    nonce: &[u8; 32],
    receipt: &mut [u8; 160],
) -> Result<Hashed<u64>, Refused>
    ensures { Looked (table_step table.now (looks log position nonce.now (length receipt.old))) result receipt.old receipt.new }
{
    let view = open(table, log)?;
    lookup_open(OpenTable { table, view }, position, nonce, receipt)
}

// Writes a receipt of what stands at a position of a log. Like a2m_put's advance it parses two lengths and hands on; the arguments, the answer
// and the call are others.
pub fn lookup(
    table: &[u8],
    log: u64,
    position: u64,
    nonce: &[u8],
    receipt: &mut [u8],
) -> Result<Hashed<u64>, Refused>
    ensures { Looked (table_step table.now (looks log position nonce.now (length receipt.old))) result receipt.old receipt.new }
{
    let nonce = nonce.as_array::<32>().ok_or(Refusal::Length)?;
    let receipt = receipt.as_mut_array::<160>().ok_or(Refusal::Length)?;
    lookup_sized(table, log, position, nonce, receipt)
}
