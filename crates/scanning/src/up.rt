// Stage 22: the scan.
ghost use Rattle.std.specs.Prelude.{◌≡◌, List, ℕ, ltb, leb};
ghost use Rattle.rules.specs.declared.Write.TheVariants as write;
ghost use Rattle.rules.specs.Words.{◌and◌};
ghost use Rattle.rules.specs.Tables.{chunk_at};
ghost use Rattle.rules.specs.Walks.{lies, undeleted};
ghost use Rattle.rules.specs.Stages.{goes_past, scans};
ghost use Rattle.rows.specs.Rows.{tables, chunk_rows};
ghost use Rattle.outcome.specs.Lengths.{Chunks, Entries};
ghost use Rattle.scanning.specs.Walked.{Walked};

use locating::Chart;
use outcome::{Read, finishes, tells};
use rules::{
    Chunk, ChunkNo, Decision, Entry, EntryNo, HandleNo, LARGEST, Report, Sizes, Task, Write,
};

// The chunk that has the cursor, and the entry of its first present key in range.
#[derive(Clone, Copy)]
pub struct Seen {
    pub chunk: ChunkNo,
    pub entry: Option<EntryNo>,
}

// The next chunk's range starts at or below the key.
pub fn goes_on(z: Sizes, chunks: &[u64], next: ChunkNo, k: u64) -> bool
    requires { Chunks z chunks.now }
    ensures { result ≡ (ltb next.0 z.chunks and leb (chunk_at (chunk_rows z.chunks chunks.now) next).min k) }
{
    (next.0 as usize) < z.chunks && rows::chunk_at(z, chunks, next).min <= k
}

// The handle is one of the table, and its mark is 0.
pub fn is_undeleted(z: Sizes, marks: &[u64], h: HandleNo) -> bool
    ensures { result ≡ undeleted z marks.now h }
{
    (h.0 as usize) < z.handles && rows::word_at(marks, h) == 0
}

// The entry's key lies in the range, and it names an undeleted handle.
pub fn gives(z: Sizes, marks: &[u64], x: Entry, from: u64, to: u64) -> bool
    ensures { result ≡ (lies from to x.key and undeleted z marks.now x.handle) }
{
    (from..=to).contains(&x.key) && is_undeleted(z, marks, x.handle)
}

// From where the index leads along the live chunks to the one that has the cursor, then along its list to the first present key in range.
pub fn walk(chart: &Chart, entries: &[u64], marks: &[u64], from: u64, to: u64) -> Seen
    requires { Entries chart.now.z entries.now }
    ensures { (ts vs : List ℕ) → Walked chart.now.z (tables chart.now.z chart.now.directory.now ts chart.now.chunks.now entries.now vs marks.now) from to result.chunk result.entry }
{
    let z = chart.z;
    let mut at = chart.start(from);
    let mut left = z.chunks;
    // Document 01's nested walk, left by a label; only a turn along the chain counts, so it is no `for`.
    let entry = 'walk: loop {
        let x = rows::chunk_at(z, chart.chunks, at);
        if 0 < left && goes_on(z, chart.chunks, x.next, from) {
            at = x.next;
            left -= 1;
            continue 'walk;
        }
        let mut e = x.head;
        for _ in 0..z.entries {
            if z.entries <= e.0 as usize {
                break 'walk None;
            }
            let y = rows::entry_at(z, entries, at, e);
            if gives(z, marks, y, from, to) {
                break 'walk Some(e);
            }
            e = y.next;
        }
        break 'walk None;
    };
    Seen { chunk: at, entry }
}

// The scan has given the pair at the key: it goes on from the next one, and past the largest none is left.
pub fn goes_past(t: Task, k: u64, pair: Report) -> Decision
    ensures { result ≡ record { task = goes_past t k; write = write.Nothing; report = pair } }
{
    if k < LARGEST {
        tells(Task { key: k + 1, ..t }, pair)
    } else {
        tells(
            Task {
                key: k,
                argument: k - 1,
                ..t
            },
            pair,
        )
    }
}

// 22 scan
pub fn scan(s: &Read, t: Task) -> Decision
    ensures { (ts : List ℕ) → result ≡ scans s.now.lent.z (tables s.now.lent.z s.now.lent.directory.now ts s.now.lent.chunks.now s.now.lent.entries.now s.now.lent.values.now s.now.lent.marks.now) t }
{
    let lent = s.lent;
    let z = lent.z;
    if t.argument < t.key {
        return finishes(Write::Nothing, Report::Done);
    }
    let seen = walk(&s.chart(), lent.entries, lent.marks, t.key, t.argument);
    if let Some(e) = seen.entry {
        let x = rows::entry_at(z, lent.entries, seen.chunk, e);
        let v = rows::word_at(lent.values, x.handle);
        return goes_past(t, x.key, Report::Pair(x.key, v));
    }
    let next = rows::chunk_at(z, lent.chunks, seen.chunk).next;
    if (next.0 as usize) < z.chunks {
        let key = rows::chunk_at(z, lent.chunks, next).min;
        return tells(Task { key, ..t }, Report::Moved);
    }
    finishes(Write::Nothing, Report::Done)
}
