// The chunks' part of the shape: each row, its slots and its list, and the chain.
// A row's own words are tested all; what reads on comes after the tests that let it.
#![tactic(auto)]

ghost use Rattle.std.specs.Prelude.{true, ◌≡◌, ◌+◌, ◌*◌, ◌<◌, ◌≤◌, length, leb};
ghost use Rattle.rules.specs.Shape.{numbers, is_empty_entry, is_empty_chunk, each, slots_of, slot_right, chunk_right, ascends_from, chain_count, chained};
ghost use Rattle.rows.specs.Rows.{chunk_rows};
ghost use Rattle.rows.specs.Seen.{seen};
ghost use Rattle.listed.specs.Parts.{bare, row_right, least, counted, count_of};
ghost use Rattle.listed.specs.Plain.{slot_of, GoesUp, AllGoUp, AllEmpty, Plain};

use rows::Lent;
use rules::{Chunk, ChunkNo, Entry, EntryNo, HandleNo, NONE, Sizes};

// ---- rows

// A number of a table, or none.
pub fn in_table(size: usize, n: u64) -> bool
    ensures { result ≡ numbers size n }
{
    ((n as usize) < size) | (n == NONE)
}

// The row of an unused slot; by `==`, which branches at each field, the shape of a fresh directory takes 1.4 times as long.
fn is_empty_entry(x: Entry) -> bool
    ensures { result ≡ is_empty_entry x }
{
    (x.key == 0) & (x.handle == HandleNo(NONE)) & (x.next == EntryNo(NONE))
}

// The row of an unused chunk.
fn is_empty_chunk(x: Chunk) -> bool
    ensures { result ≡ is_empty_chunk x }
{
    x == rows::empty_chunk()
}

// A chunk's own row.
fn row_right(z: Sizes, x: Chunk) -> bool
    ensures { result ≡ row_right z x }
{
    if x.status == Chunk::UNUSED {
        return is_empty_chunk(x);
    }
    (x.status <= Chunk::RETIRED)
        & (x.frozen <= 1)
        & in_table(z.chunks, x.next.0)
        & in_table(z.entries, x.head.0)
        & (x.used as usize <= z.entries)
}

// Slot `e` of a chunk that uses so many.
fn slot_right(z: Sizes, used: u64, e: usize, x: Entry) -> bool
    ensures { result ≡ slot_right z (bare z) used e x }
{
    if e < used as usize {
        in_table(z.handles, x.handle.0) & in_table(z.entries, x.next.0)
    } else {
        is_empty_entry(x)
    }
}

// ---- the chunks

// Every slot of chunk `c`.
fn slots_right(s: &Lent, c: ChunkNo, used: u64) -> bool
    requires { c.0 < s.now.z.chunks }
    ensures { result ≡ each (slot_right s.now.z (seen s.now) used) 0 (slots_of s.now.z (seen s.now).entries c) }
{
    (0..s.z.entries).all(|i| {
        let x = rows::entry_at(s.z, s.entries, c, EntryNo(i as u64));
        slot_right(s.z, used, i, x)
    })
}

// The entry's handle is one or none, and it is the last, or a used entry of a higher key comes next.
fn goes_up(z: Sizes, entries: &[u64], first: usize, used: u64, x: Entry) -> bool
    requires { (first + used) * 3 ≤ length entries.now }
    ensures { result ≡ true → GoesUp z (slot_of entries.now first) used x }
{
    if !in_table(z.handles, x.handle.0) {
        return false;
    }
    if x.next.0 < used {
        let y = rows::entry_row(entries, first + x.next.0 as usize);
        return x.key < y.key;
    }
    x.next == EntryNo(NONE)
}

// So does every used slot, from row `first` on.
fn all_go_up(z: Sizes, entries: &[u64], first: usize, used: u64) -> bool
    requires { (first + used) * 3 ≤ length entries.now }
    ensures { result ≡ true → AllGoUp z (slot_of entries.now first) used used }
{
    for i in 0..used as usize {
        let x = rows::entry_row(entries, first + i);
        if !goes_up(z, entries, first, used, x) {
            return false;
        }
    }
    true
}

// The rows are those of unused slots.
fn few_empty(entries: &[u64], from: usize, to: usize) -> bool
    requires { to * 3 ≤ length entries.now }
    ensures { result ≡ true → AllEmpty entries.now from to }
{
    (from..to).all(|i| is_empty_entry(rows::entry_row(entries, i)))
}

// Four rows from row `i` on are such.
fn four_empty(entries: &[u64], i: usize) -> bool
    requires { (i + 4) * 3 ≤ length entries.now }
    ensures { result ≡ true → AllEmpty entries.now i (i + 4) }
{
    let one = is_empty_entry(rows::entry_row(entries, i));
    let two = is_empty_entry(rows::entry_row(entries, i + 1));
    let three = is_empty_entry(rows::entry_row(entries, i + 2));
    let four = is_empty_entry(rows::entry_row(entries, i + 3));
    one & two & three & four
}

// The same of many rows, eight in a turn: with few keys the shape reads mostly these rows, and a way out at each would keep them from vectors.
fn all_empty(entries: &[u64], from: usize, to: usize) -> bool
    requires { (from ≤ to) × (to * 3 ≤ length entries.now) }
    ensures { result ≡ true → AllEmpty entries.now from to }
{
    let turns = (to - from) / 8;
    for turn in 0..turns {
        let i = from + turn * 8;
        if !(four_empty(entries, i) & four_empty(entries, i + 4)) {
            return false;
        }
    }
    few_empty(entries, from + turns * 8, to)
}

// The chunk's slots and list are right, seen without a walk along the list; a right chunk may fail, by a slot that no list reaches.
fn is_plain(s: &Lent, c: ChunkNo, used: u64, head: EntryNo) -> bool
    requires { (c.0 < s.now.z.chunks) × (used ≤ s.now.z.entries) }
    ensures { result ≡ true → Plain s.now.z (seen s.now).entries c used head }
{
    let first = rows::first_number(s.z, c);
    in_table(used as usize, head.0)
        && all_empty(s.entries, first + used as usize, first + s.z.entries)
        && all_go_up(s.z, s.entries, first, used)
}

// The key may follow: at the start any may, and then one above the last.
pub fn follows(last: Option<u64>, key: u64) -> bool
    ensures { result ≡ leb (least last) key }
{
    last.is_none_or(|l| l < key)
}

// The chunk's list ends, is of used entries, and its keys ascend.
fn ascends(s: &Lent, c: ChunkNo, used: u64, head: EntryNo) -> bool
    requires { (c.0 < s.now.z.chunks) × (used ≤ s.now.z.entries) }
    ensures { result ≡ ascends_from s.now.z (seen s.now).entries c used s.now.z.entries head 0 }
{
    let mut at = head;
    let mut last = None;
    for _ in 0..s.z.entries {
        if at == EntryNo(NONE) {
            return true;
        }
        if used <= at.0 {
            return false;
        }
        let x = rows::entry_at(s.z, s.entries, c, at);
        if !follows(last, x.key) {
            return false;
        }
        last = Some(x.key);
        at = x.next;
    }
    at == EntryNo(NONE)
}

// Chunk `n`, whose row is `x`, and its slots.
fn chunk_right(s: &Lent, n: usize, x: Chunk) -> bool
    requires { n < s.now.z.chunks }
    ensures { result ≡ chunk_right s.now.z (seen s.now) n x }
{
    let c = ChunkNo(n as u64);
    row_right(s.z, x)
        && (is_plain(s, c, x.used, x.head)
            || slots_right(s, c, x.used) && ascends(s, c, x.used, x.head))
}

// Every chunk.
pub fn chunks_right(s: &Lent) -> bool
    ensures { result ≡ each (chunk_right s.now.z (seen s.now)) 0 (seen s.now).chunks }
{
    (0..s.z.chunks).all(|i| chunk_right(s, i, rows::chunk_row(s.chunks, i)))
}

// ---- the chain

// How many live chunks stand in the chain from the first on, or none where it breaks.
fn chain_count(s: &Lent, first: ChunkNo) -> Option<usize>
    ensures { counted s.now.z result ≡ chain_count s.now.z (seen s.now).chunks s.now.z.chunks first 0 0 }
{
    let mut at = first;
    let mut last = None;
    for n in 0..s.z.chunks {
        let x = rows::chunk_at(s.z, s.chunks, at);
        if s.z.chunks <= at.0 as usize {
            return None;
        }
        if !((x.status == Chunk::LIVE) & follows(last, x.min)) {
            return None;
        }
        if x.next == ChunkNo(NONE) {
            return Some(n + 1);
        }
        last = Some(x.min);
        at = x.next;
    }
    None
}

// How many chunks have the status; a `for`, since a chain by `filter` and `count` is not made into vectors.
pub fn status_count(z: Sizes, chunks: &[u64], status: u64) -> usize
    requires { length chunks.now ≡ z.chunks * 6 }
    ensures count { result ≡ count_of status (chunk_rows z.chunks chunks.now) }
    ensures bound { result ≤ z.chunks }
{
    let mut n = 0;
    for i in 0..z.chunks {
        if rows::chunk_row(chunks, i).status == status {
            n += 1;
        }
    }
    n
}

// The chain from the first live chunk holds every live chunk, from key 0.
pub fn chain_right(s: &Lent) -> bool
    ensures { result ≡ chained s.now.z (seen s.now) }
{
    let d = rows::directory_row(s.directory);
    let x = rows::chunk_at(s.z, s.chunks, d.first);
    let n = chain_count(s, d.first);
    let live = status_count(s.z, s.chunks, Chunk::LIVE);
    (x.min == 0) & (n == Some(live))
}
