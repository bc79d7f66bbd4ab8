// The handle table, lent as records (document 01, "What the tables hold"): a handle's record read, made fresh, its value stored and its deleted mark set, which both give back the value that stood there (document 02, E2).
// A number past the last record reads as value 0, undeleted, and changes nothing.
#![tactic(auto)]

ghost use Rattle.std.specs.Prelude.{◌≡◌};
ghost use Rattle.rules.specs.Tables.{Tables, value, mark, put_value, put_mark};
ghost use Rattle.records.specs.Records.{record_at, freshened, stored, marked, with_records};

use rules::HandleNo;
use std::mem;

// A handle's record: its value, and its mark, 1 where it is deleted.
#[derive(Clone, Copy, Default)]
pub struct Record {
    pub value: u64,
    pub deleted: u64,
}

// The handle's record.
pub fn read(records: &[Record], h: HandleNo) -> Record
    ensures { (result ≡ record_at records.now h) × ((s : Tables) → (result.value ≡ value (with_records s records.now) h) × (result.deleted ≡ mark (with_records s records.now) h)) }
{
    records.get(h.0 as usize).copied().unwrap_or_default()
}

// The handle's record is undeleted, value 0.
// This and what follows go by the index: the contract of the slice's `get_mut` doesn't say what the slice ends as.
pub fn fresh(records: &mut [Record], h: HandleNo)
    ensures { (records.new ≡ freshened records.old h) × ((s : Tables) → with_records s records.new ≡ put_mark (put_value (with_records s records.old) h 0) h 0) }
{
    let i = h.0 as usize;
    if i < records.len() {
        records[i] = Record::default();
    }
}

// The value goes into the handle's record, and the value that stood there is given back.
pub fn store(records: &mut [Record], h: HandleNo, v: u64) -> u64
    ensures { (records.new ≡ stored records.old h v) × ((s : Tables) → with_records s records.new ≡ put_value (with_records s records.old) h v) × (result ≡ (record_at records.old h).value) × ((s : Tables) → result ≡ value (with_records s records.old) h) }
{
    let i = h.0 as usize;
    if i < records.len() {
        mem::replace(&mut records[i].value, v)
    } else {
        0
    }
}

// The handle's record is marked deleted, and the value that stands there is given back.
pub fn mark(records: &mut [Record], h: HandleNo) -> u64
    ensures { (records.new ≡ marked records.old h) × ((s : Tables) → with_records s records.new ≡ put_mark (with_records s records.old) h 1) × (result ≡ (record_at records.old h).value) × ((s : Tables) → result ≡ value (with_records s records.old) h) }
{
    let i = h.0 as usize;
    if i < records.len() {
        let value = records[i].value;
        records[i].deleted = 1;
        value
    } else {
        0
    }
}
