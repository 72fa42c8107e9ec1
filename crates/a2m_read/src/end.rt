// End.
ghost use Rattle.std.specs.Prelude.{◌≡◌, ◌≤◌, IfSome, Ok, length};
ghost use Rattle.receipt.specs.Kind.{kind_number};
ghost use Rattle.a2m.specs.Call.{end as ends};
ghost use Rattle.a2m.specs.ImageCalls.{end_kind};
ghost use Rattle.a2m.specs.TableCalls.{table_step};
ghost use Rattle.a2m.specs.Opened.{slot_number, Ended};

use a2m::OpenTable;
use a2m_attest::attest::attest;
use a2m_open::open;
use layout::TableRef;
use layout_header::keeper_of;
use receipt::{Facts, Kind, Name};
use refusal::{Hashed, Refusal, Refused};

// The kind of an end, given the log's last slot: a fresh log has none, and its end is unassigned.
fn kind_at(last: Option<usize>) -> Kind
    requires { IfSome last (λ s. 1 ≤ s) }
    ensures { kind_number result ≡ end_kind (slot_number last) }
{
    match last {
        None => Kind::Unassigned,
        Some(_) => Kind::Assigned,
    }
}

// The receipt of the entry at the high position; of a fresh log, that nothing is assigned there.
fn end_open(opened: OpenTable, nonce: &[u8; 32], receipt: &mut [u8; 160]) -> Hashed<()>
    ensures { Ended (table_step opened.entry.table.now (ends opened.entry.view.log nonce.now (length receipt.old))) (Ok result) receipt.old receipt.new }
{
    let OpenTable { table, view } = opened;
    let row = view.row;
    let last = view.last_slot();
    let facts = Facts {
        name: Name::End,
        kind: u8::from(kind_at(last)),
        log: view.log as u8,
        keeper: keeper_of(table),
        position: row.high,
        reference: row.high,
    };
    let lent = TableRef {
        table,
        counts: view.counts,
    };
    let blocks = attest(lent, last, facts, nonce, receipt);
    Hashed { value: (), blocks }
}

// Writes a receipt of the log's last entry, or that it has none yet.
pub fn end(table: &[u8], log: u64, nonce: &[u8], receipt: &mut [u8]) -> Result<Hashed<()>, Refused>
    ensures { Ended (table_step table.now (ends log nonce.now (length receipt.old))) result receipt.old receipt.new }
{
    let nonce = nonce.as_array::<32>().ok_or(Refusal::Length)?;
    let receipt = receipt.as_mut_array::<160>().ok_or(Refusal::Length)?;
    let view = open(table, log)?;
    Ok(end_open(OpenTable { table, view }, nonce, receipt))
}
