// What copy does with entries: it walks along the old chunk's list by those that name a handle, counts them, and writes them into a new chunk's rows.
#![tactic(auto)]

ghost use Rattle.std.specs.Prelude.{◌≡◌, ◌+◌, ◌*◌, ◌-◌, ◌<◌, ◌≤◌, length};
ghost use Rattle.rows.specs.Rows.{entry_rows};
ghost use Rattle.copying.specs.Copied.{copy_of, first_key, naming_at, Steps, Fills, Filled};

use rules::{ChunkNo, Entry, EntryNo, NONE, Sizes};

// Where a walk along a chunk's list stands: the chunk, the entry, and how many steps are left.
#[derive(Clone, Copy)]
pub struct Place {
    pub chunk: ChunkNo,
    pub entry: EntryNo,
    pub left: usize,
}

// An entry that names a handle, its number in the chunk, and where the walk stands after it.
#[derive(Clone, Copy)]
pub struct Named {
    pub at: EntryNo,
    pub entry: Entry,
    pub rest: Place,
}

// The first linked entry from the place on that names a handle, or none.
pub fn naming(z: Sizes, entries: &[u64], from: Place) -> Option<Named>
    requires { (from.chunk.0 < z.chunks) × (length entries.now ≡ z.chunks * z.entries * 3) }
    ensures { Steps z (entry_rows (z.chunks * z.entries) entries.now) from result }
{
    let mut at = from.entry;
    for left in (0..from.left).rev() {
        if z.entries <= at.0 as usize {
            return None;
        }
        let x = rows::entry_at(z, entries, from.chunk, at);
        if (x.handle.0 as usize) < z.handles {
            let rest = Place {
                entry: x.next,
                left,
                ..from
            };
            return Some(Named { at, entry: x, rest });
        }
        at = x.next;
    }
    None
}

// How many linked entries from the place on name a handle.
pub fn naming_count(z: Sizes, entries: &[u64], from: Place) -> usize
    requires { (from.chunk.0 < z.chunks) × (length entries.now ≡ z.chunks * z.entries * 3) }
    ensures { (result ≡ length (naming_at z (entry_rows (z.chunks * z.entries) entries.now) from)) × (result ≤ from.left) }
{
    let mut count: usize = 0;
    let mut at = from;
    while let Some(x) = naming(z, entries, at) {
        count += 1;
        at = x.rest;
    }
    count
}

// The key of the first entry from the place on that names a handle, or none.
pub fn next_key(z: Sizes, entries: &[u64], from: Place) -> Option<u64>
    requires { (from.chunk.0 < z.chunks) × (length entries.now ≡ z.chunks * z.entries * 3) }
    ensures { result ≡ first_key (naming_at z (entry_rows (z.chunks * z.entries) entries.now) from) }
{
    naming(z, entries, from).map(|x| x.entry.key)
}

// An entry as row `n` of the `many` that a new chunk gets.
fn copied(x: Entry, n: usize, many: usize) -> Entry
    requires { n < many }
    ensures { result ≡ copy_of x n (many - (n + 1)) }
{
    let next = if n + 1 == many { NONE } else { (n + 1) as u64 };
    Entry {
        next: EntryNo(next),
        ..x
    }
}

// The next `many` entries that name a handle go into the new chunk's first rows, each linked to the next.
pub fn fill(z: Sizes, entries: &mut [u64], from: Place, into: ChunkNo, many: usize) -> Place
    requires { Fills z entries.old from into many }
    ensures { Filled z (entry_rows (z.chunks * z.entries) entries.old) (entry_rows (z.chunks * z.entries) entries.new) from result into many }
{
    let mut at = from;
    for n in 0..many {
        let Some(x) = naming(z, entries, at) else {
            return at;
        };
        let row = copied(x.entry, n, many);
        rows::put_entry(z, entries, into, EntryNo(n as u64), row);
        at = x.rest;
    }
    at
}
