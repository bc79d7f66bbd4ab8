// The index's part of the shape: its rows ascend, and each has its chunk's minimum key (document 02, E3).
#![tactic(auto)]

ghost use Rattle.std.specs.Prelude.{◌≡◌, ◌+◌, ◌*◌, ◌≤◌, length};
ghost use Rattle.rules.specs.Shape.{is_empty_row, names_chunk, index_right};
ghost use Rattle.rows.specs.Rows.{chunk_rows, charted};
ghost use Rattle.indexed.specs.Charts.{Long, empty_from, FirstRight};

use rules::{Chunk, IndexRow, Sizes};

// A row past the count.
fn is_empty_row(x: IndexRow) -> bool
    ensures { result ≡ is_empty_row x }
{
    x == rows::empty_row()
}

// The row names a live or retired chunk, and has its minimum key.
fn names_chunk(z: Sizes, chunks: &[u64], x: IndexRow) -> bool
    requires { length chunks.now ≡ z.chunks * 6 }
    ensures { result ≡ names_chunk z (chunk_rows z.chunks chunks.now) x }
{
    let i = x.chunk.0 as usize;
    if z.chunks <= i {
        return false;
    }
    let row = rows::chunk_row(chunks, i);
    ((row.status == Chunk::LIVE) | (row.status == Chunk::RETIRED)) & (x.min == row.min)
}

// The first rows, so many.
fn rows_ascend(z: Sizes, directory: &[u64], chunks: &[u64], many: usize) -> bool
    requires { Long z directory.now chunks.now × (many ≤ z.chunks) }
    ensures { FirstRight z directory.now chunks.now many result }
{
    let mut last = None;
    for i in 0..many {
        let x = rows::index_row(directory, i);
        if !(listed::follows(last, x.min) & names_chunk(z, chunks, x)) {
            return false;
        }
        last = Some(x.min);
    }
    true
}

// The rows from one on are empty; a fold, since an `all`, which leaves early, is not made into vectors.
fn rows_empty(z: Sizes, directory: &[u64], from: usize) -> bool
    requires { 6 + z.chunks * 2 ≤ length directory.now }
    ensures { result ≡ empty_from z directory.now from }
{
    (from..z.chunks).fold(
        true,
        |ok, i| ok & is_empty_row(rows::index_row(directory, i)),
    )
}

// Every row.
pub fn index_right(z: Sizes, directory: &[u64], chunks: &[u64]) -> bool
    requires { Long z directory.now chunks.now }
    ensures { result ≡ index_right z (charted z directory.now chunks.now) }
{
    let d = rows::directory_row(directory);
    let many = d.indexed as usize;
    many <= z.chunks && rows_ascend(z, directory, chunks, many) && rows_empty(z, directory, many)
}
