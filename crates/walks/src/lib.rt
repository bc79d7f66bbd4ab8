// The walks: along the live chunks, along a chunk's list, up a stack, and through the rows of a table.
#![tactic(auto)]

ghost use Rattle.std.specs.Prelude.{◌≡◌, IfSome, Bool, ℕ, ◌+◌, ◌*◌, ◌<◌, ◌≤◌, [], length, drop, get_or};
ghost use Rattle.rules.specs.Words.{no_entry};
ghost use Rattle.rules.specs.Tables.{entry_at};
ghost use Rattle.rules.specs.Walks.{locate_from, before_from, find_from, place_from, depth};
ghost use Rattle.rules.specs.Rebalance.{unused_from, published_on, held_chunk};
ghost use Rattle.walks.specs.Found.{numbered, Found, FoundChunk, publishes_on};
ghost use Rattle.rows.specs.Rows.{task_rows, chunk_rows, entry_rows, stack_rows};

use rules::{Chunk, ChunkNo, Entry, EntryNo, Sizes, Task};

// ---- along the live chunks

// The last chunk from the first on whose minimum key is at most the key.
pub fn locate(z: Sizes, chunks: &[u64], first: ChunkNo, k: u64) -> ChunkNo
    requires { length chunks.now ≡ z.chunks * 6 }
    ensures { result ≡ locate_from z (chunk_rows z.chunks chunks.now) z.chunks first k }
{
    let mut at = first;
    let mut next = rows::chunk_at(z, chunks, first).next;
    for _ in 0..z.chunks {
        if z.chunks <= next.0 as usize {
            return at;
        }
        let x = rows::chunk_at(z, chunks, next);
        if k < x.min {
            return at;
        }
        at = next;
        next = x.next;
    }
    at
}

// The chunk from the first on whose next is the given one, or none.
pub fn before(z: Sizes, chunks: &[u64], first: ChunkNo, x: ChunkNo) -> Option<ChunkNo>
    requires { length chunks.now ≡ z.chunks * 6 }
    ensures { (numbered result ≡ before_from z (chunk_rows z.chunks chunks.now) z.chunks first x) × (first.0 < z.chunks → IfSome result (λ c. c.0 < z.chunks)) }
{
    let mut at = first;
    for _ in 0..z.chunks {
        let next = rows::chunk_at(z, chunks, at).next;
        if next == x {
            return Some(at);
        }
        if z.chunks <= next.0 as usize {
            return None;
        }
        at = next;
    }
    None
}

// ---- along a chunk's list

// The linked entry with the key, from the head on.
pub fn find(z: Sizes, entries: &[u64], c: ChunkNo, head: EntryNo, k: u64) -> Option<EntryNo>
    requires { (c.0 < z.chunks) × (length entries.now ≡ z.chunks * z.entries * 3) }
    ensures { Found z result (find_from z (entry_rows (z.chunks * z.entries) entries.now) c z.entries head k) }
{
    let mut at = head;
    for _ in 0..z.entries {
        if z.entries <= at.0 as usize {
            return None;
        }
        let x = rows::entry_at(z, entries, c, at);
        if x.key == k {
            return Some(at);
        }
        at = x.next;
    }
    None
}

// The last linked entry from the head on with a key below the given one.
pub fn place(z: Sizes, entries: &[u64], c: ChunkNo, head: EntryNo, k: u64) -> Option<EntryNo>
    requires { (c.0 < z.chunks) × (length entries.now ≡ z.chunks * z.entries * 3) }
    ensures { Found z result (place_from z (entry_rows (z.chunks * z.entries) entries.now) c z.entries no_entry head k) }
{
    let mut below = None;
    let mut at = head;
    for _ in 0..z.entries {
        if z.entries <= at.0 as usize {
            return below;
        }
        let x = rows::entry_at(z, entries, c, at);
        if k <= x.key {
            return below;
        }
        below = Some(at);
        at = x.next;
    }
    below
}

// A chunk's entry; a chunk past the table has only empty ones.
pub fn entry_in(z: Sizes, entries: &[u64], c: ChunkNo, e: EntryNo) -> Entry
    requires { (e.0 < z.entries) × (length entries.now ≡ z.chunks * z.entries * 3) }
    ensures { result ≡ entry_at z (entry_rows (z.chunks * z.entries) entries.now) c e }
{
    let i = c.0 as usize;
    if i < z.chunks {
        rows::entry_at(z, entries, c, e)
    } else {
        rows::empty_entry()
    }
}

// ---- up a stack

// How many entries are on task `n`'s stack: its words before the first that is none.
pub fn stack_depth(z: Sizes, tasks: &[u64], n: usize) -> usize
    requires { (n < z.tasks) × (length tasks.now ≡ z.tasks * 11 + z.tasks * z.entries) }
    ensures { (result ≡ depth z (get_or (stack_rows z tasks.now) n [])) × (result ≤ z.entries) }
{
    for i in 0..z.entries {
        let e = rows::stack_at(z, tasks, n, i);
        if z.entries <= e.0 as usize {
            return i;
        }
    }
    z.entries
}

// ---- what the rebalance looks for

// The task is published, and holds the chunk.
#[tactic(auto, unfolding(crate::specs::Found::publishes_on))]
fn publishes_on(t: Task, c: ChunkNo) -> bool
    ensures { result ≡ publishes_on c t }
{
    t.published == 1 && t.chunk == c
}

// A task of the first `n` rows is published on the chunk.
pub fn published_on(n: usize, tasks: &[u64], c: ChunkNo) -> bool
    requires { n * 11 ≤ length tasks.now }
    ensures { result ≡ published_on (task_rows n tasks.now) c }
{
    (0..n).any(|i| publishes_on(rows::task_row(tasks, i), c))
}

// A task of the first `n` rows holds the chunk.
pub fn held_chunk(n: usize, tasks: &[u64], c: ChunkNo) -> bool
    requires { n * 11 ≤ length tasks.now }
    ensures { result ≡ held_chunk (task_rows n tasks.now) c }
{
    (0..n).any(|i| rows::task_row(tasks, i).chunk == c)
}

// The first unused chunk from the given one on, of `n`, or none.
pub fn unused_from(n: usize, chunks: &[u64], from: usize) -> Option<ChunkNo>
    requires { (n * 6 ≤ length chunks.now) × (from ≤ n) }
    ensures { FoundChunk n result (unused_from (drop from (chunk_rows n chunks.now)) from) }
{
    for i in from..n {
        if rows::chunk_row(chunks, i).status == Chunk::UNUSED {
            return Some(ChunkNo(i as u64));
        }
    }
    None
}
