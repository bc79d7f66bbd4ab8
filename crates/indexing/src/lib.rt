// The index's rows written (document 02, E3): those of the live chunks, and empty ones past them.
#![tactic(auto)]

ghost use Rattle.std.specs.Prelude.{◌≡◌, List, ℕ, ◌+◌, ◌*◌, ◌≤◌, length};
ghost use Rattle.rules.specs.Rebalance.{gives, indexes};
ghost use Rattle.rows.specs.Rows.{chunk_rows, tables};
ghost use Rattle.indexing.specs.Written.{rows_along, Written, Emptied};

use rules::{ChunkNo, Directory, IndexRow, Report, Sizes};

// A row for each chunk of the chain, from the first on; answers how many.
fn write_rows(z: Sizes, directory: &mut [u64], chunks: &[u64], first: ChunkNo) -> usize
    requires { (length directory.old ≡ 6 + z.chunks * 2) × (length chunks.now ≡ z.chunks * 6) }
    ensures { Written z.chunks directory.old directory.new (rows_along z (chunk_rows z.chunks chunks.now) z.chunks first) result }
{
    let size = z.chunks;
    let mut at = first;
    for n in 0..size {
        let x = rows::chunk_at(z, chunks, at);
        if size <= at.0 as usize {
            return n;
        }
        let row = IndexRow {
            min: x.min,
            chunk: at,
        };
        rows::put_index_row(directory, n, row);
        at = x.next;
    }
    size
}

// Every row from row `from` on is empty, and none is read.
pub fn empty_from(z: Sizes, directory: &mut [u64], from: usize)
    requires { (length directory.old ≡ 6 + z.chunks * 2) × (from ≤ z.chunks) }
    ensures { Emptied z.chunks directory.old directory.new from }
{
    for i in from..z.chunks {
        rows::put_index_row(directory, i, rows::empty_row());
    }
}

// The index's rows are exactly those of the live chunks.
pub fn index(z: Sizes, directory: &mut [u64], chunks: &[u64]) -> Report
    requires { (length directory.old ≡ 6 + z.chunks * 2) × (length chunks.now ≡ z.chunks * 6) }
    ensures { (ts es vs ms : List ℕ) → gives (tables z directory.new ts chunks.now es vs ms) result ≡ indexes z (tables z directory.old ts chunks.now es vs ms) }
{
    let d = rows::directory_row(directory);
    let n = write_rows(z, directory, chunks, d.first);
    empty_from(z, directory, n);
    let row = Directory {
        stage: 5,
        indexed: n as u64,
        ..d
    };
    rows::put_directory_row(directory, row);
    Report::Moved
}
