// The calls of a script on its table. Its answers have no column for the blocks hashed.
#![tactic(auto)]

ghost use Rattle.std.specs.Prelude.{◌≡◌, true, ◌<◌};
ghost use Rattle.octets.specs.Octets.{zeros};
ghost use Rattle.bigendian.specs.BigEndian.{placed as placed_in};
ghost use Rattle.refusal.specs.Number.{number_of};
ghost use Rattle.receipt.specs.Attestation.{read_attestation};
ghost use Rattle.layout.specs.Layout.{logs_of, read_table};
ghost use Rattle.table.specs.Whole.{whole};
ghost use Rattle.a2m.specs.Call.{append as appends, advance as advances, truncate as truncates, lookup as looks, end as ends};
ghost use Rattle.a2m.specs.Call.{refused as refuses};
ghost use Rattle.a2m.specs.ImageCalls.{row_in};
ghost use Rattle.a2m.specs.TableCalls.{table_step};
ghost use Rattle.script.specs.Answer.{letter_of, attested_answer, reply_answer, call_answer};
ghost use Rattle.script.specs.Named.{Named, ChangeNamed, change_answer};

use a2m::Bounds;
use bigendian::{number_at, put_number};
use layout::{Row, TableRef};
use layout_header::counts_of;
use layout_rows::row_at;
use receipt_fields::{kind_of, position_of, reference_of, value_of};
use refusal::{Hashed, Refusal, Refused};
use script::Answer;

// A number in the last 8 of 32 bytes.
fn placed(n: u64) -> [u8; 32]
    ensures { result ≡ placed_in n }
{
    let mut b = [0; 32];
    put_number::<8>(&mut b, 24, n);
    b
}

// The row of a log of a whole table.
fn row_of(table: &[u8], log: u64) -> Row
    requires { (whole table.now ≡ true) × (log < logs_of table.now) }
    ensures { result ≡ row_in (read_table table.now) log }
{
    let lent = TableRef {
        table,
        counts: counts_of(table),
    };
    row_at(lent, log as usize)
}

// The answer to a refused call: a torn table and no log have no row.
fn refused(table: &[u8], log: u64, why: Refusal) -> Answer
    requires { Named table.now log (number_of why) }
    ensures { result ≡ reply_answer (refuses (number_of why)) (row_in (read_table table.now) log) }
{
    match why {
        Refusal::Torn | Refusal::NoLog => Answer::from(why),
        _ => {
            let row = row_of(table, log);
            Answer::Bounded {
                number: u8::from(why) as u64,
                low: row.low,
                high: row.high,
            }
        }
    }
}

// The answer to an append, advance or truncate that left the table so.
fn changed(table: &[u8], log: u64, change: Result<Hashed<Bounds>, Refused>) -> Answer
    requires { ChangeNamed table.now log change }
    ensures { result ≡ change_answer change (row_in (read_table table.now) log) }
{
    match change {
        Ok(made) => Answer::Bounded {
            number: 0,
            low: made.value.low,
            high: made.value.high,
        },
        Err(r) => refused(table, log, r.why),
    }
}

// The letter of a receipt's kind, by its number: a Kind would be read from it to be matched again, with an arm for other bytes.
#[tactic(auto, unfolding(script::specs::Answer::letter_of))]
fn letter(kind: u8) -> u8
    ensures { result ≡ letter_of kind }
{
    match kind {
        0 => b'U',
        1 => b'A',
        2 => b'S',
        _ => b'F',
    }
}

// The answer that a receipt gives.
fn attested(table: &[u8], log: u64, receipt: &[u8; 160]) -> Answer
    requires { (whole table.now ≡ true) × (log < logs_of table.now) }
    ensures { result ≡ attested_answer (read_attestation receipt.now) (row_in (read_table table.now) log) }
{
    let row = row_of(table, log);
    Answer::Attested {
        kind: letter(kind_of(receipt)),
        position: position_of(receipt),
        reference: reference_of(receipt),
        value: number_at::<8>(value_of(receipt), 24),
        low: row.low,
        high: row.high,
    }
}

pub fn append(table: &mut [u8], log: u64, value: u64) -> Answer
    ensures answer { result ≡ call_answer table.old (appends log (placed_in value)) }
    ensures bytes { table.new ≡ (table_step table.old (appends log (placed_in value))).state }
{
    let x = placed(value);
    let change = a2m_put::append::append(table, log, &x);
    changed(table, log, change)
}

pub fn advance(table: &mut [u8], log: u64, position: u64, digest: u64, value: u64) -> Answer
    ensures answer { result ≡ call_answer table.old (advances log position (placed_in digest) (placed_in value)) }
    ensures bytes { table.new ≡ (table_step table.old (advances log position (placed_in digest) (placed_in value))).state }
{
    let d = placed(digest);
    let x = placed(value);
    let change = a2m_put::advance::advance_sized(table, log, position, &d, &x);
    changed(table, log, change)
}

pub fn truncate(table: &mut [u8], log: u64, position: u64) -> Answer
    ensures answer { result ≡ call_answer table.old (truncates log position) }
    ensures bytes { table.new ≡ (table_step table.old (truncates log position)).state }
{
    let change = a2m_truncate::truncate(table, log, position);
    changed(table, log, change)
}

pub fn lookup(table: &[u8], log: u64, position: u64) -> Answer
    ensures { result ≡ call_answer table.now (looks log position (zeros 32) 160) }
{
    let mut receipt = [0; 160];
    match a2m_read::lookup::lookup_sized(table, log, position, &[0; 32], &mut receipt) {
        Ok(_) => attested(table, log, &receipt),
        Err(r) => refused(table, log, r.why),
    }
}

pub fn end(table: &[u8], log: u64) -> Answer
    ensures { result ≡ call_answer table.now (ends log (zeros 32) 160) }
{
    let mut receipt = [0; 160];
    match a2m_read::end::end(table, log, &[0; 32], &mut receipt) {
        Ok(_) => attested(table, log, &receipt),
        Err(r) => refused(table, log, r.why),
    }
}
