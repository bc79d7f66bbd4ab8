// The rebalance over the lent tables: begin, then drain, copy, swap in, index and release, one call each (document 01, "Rebalancing"; document 02, E3).
// Each stage is lent the tables that it reads or writes, and no others: its contract holds whatever the others are.
#![tactic(auto)]

ghost use Rattle.std.specs.Prelude.{◌≡◌, List, ℕ, ◌+◌, ◌*◌, ◌<◌, ◌≤◌, length, set, eqb};
ghost use Rattle.rules.specs.Words.{pick};
ghost use Rattle.rules.specs.Kinds.{told_by};
ghost use Rattle.rules.specs.Rebalance.{gives, begins, drains, copies, swaps_in, releases, rebalance_does};
ghost use Rattle.rows.specs.Rows.{directory_of, chunk_rows, entry_rows, tables};
ghost use Rattle.locating.specs.Charted.{Charted};
ghost use Rattle.copying.specs.Copied.{Fills, Filled};
ghost use Rattle.rebalance.specs.Ready.{Given, CanCopy, Ready, Halves, Halved};
ghost use Rattle.rebalance.specs.Parts.{new_of, joined, placed, cleared};

use copying::Place;
use locating::Chart;
use rules::{Chunk, ChunkNo, Directory, EntryNo, NONE, RebalanceStage, Refusal, Report, Sizes};

// ---- begin

// The live chunk that has the key is frozen, and a rebalance of it is under way.
pub fn begin(z: Sizes, directory: &mut [u64], chunks: &mut [u64], k: u64) -> Result<Report, Refusal>
    requires { Charted z directory.old chunks.old }
    ensures { (ts es vs ms : List ℕ) → gives (tables z directory.new ts chunks.new es vs ms) (told_by result) ≡ begins z (tables z directory.old ts chunks.old es vs ms) k }
{
    let d = rows::directory_row(directory);
    if d.stage != 0 {
        return Err(Refusal::RebalanceAtWork);
    }
    if listed::status_count(z, chunks, Chunk::UNUSED) < 2 {
        return Err(Refusal::NoChunks);
    }
    let chart = Chart {
        z,
        directory: &*directory,
        chunks: &*chunks,
    };
    let c = chart.locate(k);
    let x = rows::chunk_at(z, chunks, c);
    rows::put_chunk(z, chunks, c, Chunk { frozen: 1, ..x });
    let row = Directory {
        stage: 1,
        old: c,
        new: ChunkNo(NONE),
        second: ChunkNo(NONE),
        ..d
    };
    rows::put_directory_row(directory, row);
    Ok(Report::Moved)
}

// ---- drain

// The old chunk has no publisher left.
pub fn drain(z: Sizes, directory: &mut [u64], tasks: &[u64]) -> Report
    requires { (length directory.old ≡ 6 + z.chunks * 2) × (z.tasks * 11 ≤ length tasks.now) }
    ensures { (cs es vs ms : List ℕ) → gives (tables z directory.new tasks.now cs es vs ms) result ≡ drains z (tables z directory.old tasks.now cs es vs ms) }
{
    let d = rows::directory_row(directory);
    if walks::published_on(z.tasks, tasks, d.old) {
        return Report::Waiting;
    }
    let row = Directory {
        stage: 2,
        new: ChunkNo(NONE),
        second: ChunkNo(NONE),
        ..d
    };
    rows::put_directory_row(directory, row);
    Report::Moved
}

// ---- copy

// A new chunk's row, with its minimum key and so many entries.
fn new_chunk(min: u64, many: usize) -> Chunk
    ensures { result ≡ new_of min many }
{
    let head = if many == 0 { NONE } else { 0 };
    Chunk {
        status: Chunk::NEW,
        min,
        head: EntryNo(head),
        used: many as u64,
        ..rows::empty_chunk()
    }
}

// A new chunk is made of the next `many` entries that name a handle.
fn make(
    z: Sizes,
    chunks: &mut [u64],
    entries: &mut [u64],
    from: Place,
    into: ChunkNo,
    min: u64,
    many: usize,
) -> Place
    requires { Fills z entries.old from into many × (length chunks.old ≡ z.chunks * 6) }
    ensures { Filled z (entry_rows (z.chunks * z.entries) entries.old) (entry_rows (z.chunks * z.entries) entries.new) from result into many × (chunk_rows z.chunks chunks.new ≡ set (chunk_rows z.chunks chunks.old) into.0 (new_of min many)) }
{
    let rest = copying::fill(z, entries, from, into, many);
    rows::put_chunk(z, chunks, into, new_chunk(min, many));
    rest
}

// Two new chunks are made of the entries that name a handle, the first of the larger half.
fn make_two(
    z: Sizes,
    chunks: &mut [u64],
    entries: &mut [u64],
    whole: Place,
    min: u64,
    count: usize,
    a: ChunkNo,
    b: ChunkNo,
)
    requires { Halves z chunks.old entries.old whole count a b }
    ensures { Halved z (chunk_rows z.chunks chunks.old) (chunk_rows z.chunks chunks.new) (entry_rows (z.chunks * z.entries) entries.old) (entry_rows (z.chunks * z.entries) entries.new) whole min count a b }
{
    let half = count - count / 2;
    let rest = make(z, chunks, entries, whole, a, min, half);
    let key = copying::next_key(z, entries, rest).unwrap_or(0);
    make(z, chunks, entries, rest, b, key, count - half);
}

// The old chunk's entries that name a handle are copied: into one new chunk, or, more than half a chunk of them, into two.
pub fn copy(z: Sizes, directory: &mut [u64], chunks: &mut [u64], entries: &mut [u64]) -> Report
    requires directory_len { (length directory.old ≡ 6 + z.chunks * 2) × (length chunks.old ≡ z.chunks * 6) × (length entries.old ≡ z.chunks * z.entries * 3) }
    requires can_copy { CanCopy z (directory_of directory.old) (chunk_rows z.chunks chunks.old) }
    ensures { (ts vs ms : List ℕ) → gives (tables z directory.new ts chunks.new entries.new vs ms) result ≡ copies z (tables z directory.old ts chunks.old entries.old vs ms) }
{
    let d = rows::directory_row(directory);
    let x = rows::chunk_at(z, chunks, d.old);
    let whole = Place {
        chunk: d.old,
        entry: x.head,
        left: z.entries,
    };
    let count = copying::naming_count(z, entries, whole);
    let a = walks::unused_from(z.chunks, chunks, 0).unwrap();
    if count <= z.entries / 2 {
        make(z, chunks, entries, whole, a, x.min, count);
        let row = Directory {
            stage: 3,
            new: a,
            second: ChunkNo(NONE),
            ..d
        };
        rows::put_directory_row(directory, row);
        return Report::Moved;
    }
    let b = walks::unused_from(z.chunks, chunks, a.0 as usize + 1).unwrap();
    make_two(z, chunks, entries, whole, x.min, count, a, b);
    let row = Directory {
        stage: 3,
        new: a,
        second: b,
        ..d
    };
    rows::put_directory_row(directory, row);
    Report::Moved
}

// ---- swap in

// The chunk before the old one, if there is one, goes on to the new one.
fn join(z: Sizes, chunks: &mut [u64], d: Directory)
    requires { length chunks.old ≡ z.chunks * 6 }
    ensures { chunk_rows z.chunks chunks.new ≡ joined z (chunk_rows z.chunks chunks.old) d }
{
    if d.first == d.old {
        return;
    }
    if let Some(p) = walks::before(z, chunks, d.first, d.old) {
        let x = rows::chunk_at(z, chunks, p);
        rows::put_chunk(z, chunks, p, Chunk { next: d.new, ..x });
    }
}

// The new chunks are live, the last of them before the given one.
fn place_new(z: Sizes, chunks: &mut [u64], d: Directory, a: Chunk, b: Chunk, after: ChunkNo)
    requires { length chunks.old ≡ z.chunks * 6 }
    ensures { chunk_rows z.chunks chunks.new ≡ placed z (chunk_rows z.chunks chunks.old) d a b after }
{
    let status = Chunk::LIVE;
    if z.chunks <= d.second.0 as usize {
        let row = Chunk {
            status,
            next: after,
            ..a
        };
        rows::put_chunk(z, chunks, d.new, row);
        return;
    }
    let first = Chunk {
        status,
        next: d.second,
        ..a
    };
    let second = Chunk {
        status,
        next: after,
        ..b
    };
    rows::put_chunk(z, chunks, d.new, first);
    rows::put_chunk(z, chunks, d.second, second);
}

// The first live chunk, where the new one takes the old one's place.
fn first_live(d: Directory) -> ChunkNo
    ensures { result ≡ pick (eqb d.first.0 d.old.0) d.new d.first }
{
    if d.first == d.old { d.new } else { d.first }
}

// The new chunks stand in the old one's place, and it is retired.
pub fn swap_in(z: Sizes, directory: &mut [u64], chunks: &mut [u64]) -> Report
    requires { (length directory.old ≡ 6 + z.chunks * 2) × (length chunks.old ≡ z.chunks * 6) }
    ensures { (ts es vs ms : List ℕ) → gives (tables z directory.new ts chunks.new es vs ms) result ≡ swaps_in z (tables z directory.old ts chunks.old es vs ms) }
{
    let d = rows::directory_row(directory);
    let x = rows::chunk_at(z, chunks, d.old);
    let a = rows::chunk_at(z, chunks, d.new);
    let b = rows::chunk_at(z, chunks, d.second);
    join(z, chunks, d);
    place_new(z, chunks, d, a, b, x.next);
    let status = Chunk::RETIRED;
    rows::put_chunk(z, chunks, d.old, Chunk { status, ..x });
    let row = Directory {
        first: first_live(d),
        stage: 4,
        ..d
    };
    rows::put_directory_row(directory, row);
    Report::Moved
}

// ---- release

// A chunk's rows are emptied.
fn clear(z: Sizes, entries: &mut [u64], c: ChunkNo)
    requires { (c.0 < z.chunks) × (length entries.old ≡ z.chunks * z.entries * 3) }
    ensures { entry_rows (z.chunks * z.entries) entries.new ≡ cleared z z.entries (entry_rows (z.chunks * z.entries) entries.old) c }
{
    for n in (0..z.entries).rev() {
        rows::put_entry(z, entries, c, EntryNo(n as u64), rows::empty_entry());
    }
}

// The old chunk is unused again, once no task holds it.
pub fn release(
    z: Sizes,
    directory: &mut [u64],
    tasks: &[u64],
    chunks: &mut [u64],
    entries: &mut [u64],
) -> Report
    requires given { Given z directory.old tasks.now chunks.old entries.old }
    requires directory_bound { (directory_of directory.old).old.0 < z.chunks }
    ensures { (vs ms : List ℕ) → gives (tables z directory.new tasks.now chunks.new entries.new vs ms) result ≡ releases z (tables z directory.old tasks.now chunks.old entries.old vs ms) }
{
    let d = rows::directory_row(directory);
    if walks::held_chunk(z.tasks, tasks, d.old) {
        return Report::Waiting;
    }
    clear(z, entries, d.old);
    rows::put_chunk(z, chunks, d.old, rows::empty_chunk());
    let row = Directory {
        stage: 0,
        old: ChunkNo(NONE),
        new: ChunkNo(NONE),
        second: ChunkNo(NONE),
        ..d
    };
    rows::put_directory_row(directory, row);
    Report::Finished
}

// ---- the stages, by their number

// The rebalance's next stage is done; while it is idle there is none.
pub fn rebalance(
    z: Sizes,
    directory: &mut [u64],
    tasks: &[u64],
    chunks: &mut [u64],
    entries: &mut [u64],
) -> Result<Report, Refusal>
    requires given { Given z directory.old tasks.now chunks.old entries.old }
    requires ready { Ready z (directory_of directory.old) (chunk_rows z.chunks chunks.old) }
    ensures { (vs ms : List ℕ) → gives (tables z directory.new tasks.now chunks.new entries.new vs ms) (told_by result) ≡ rebalance_does (directory_of directory.old).stage z (tables z directory.old tasks.now chunks.old entries.old vs ms) }
{
    let d = rows::directory_row(directory);
    let report = match RebalanceStage::try_from(d.stage)? {
        RebalanceStage::Drain => drain(z, directory, tasks),
        RebalanceStage::Copy => copy(z, directory, chunks, entries),
        RebalanceStage::SwapIn => swap_in(z, directory, chunks),
        RebalanceStage::Index => indexing::index(z, directory, chunks),
        RebalanceStage::Release => release(z, directory, tasks, chunks, entries),
    };
    Ok(report)
}
