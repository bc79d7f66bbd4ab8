// Locating by the index (document 02, E3): it leads to a live chunk, and from there the chain is walked.
#![tactic(auto)]

mod chart;

ghost use Rattle.std.specs.Prelude.{◌≡◌, List, ℕ, ◌+◌, ◌*◌, ◌≤◌, length};
ghost use Rattle.rules.specs.Walks.{locate};
ghost use Rattle.rows.specs.Rows.{chunk_rows, tables};
ghost use Rattle.locating.specs.Charted.{Charted, Rises, Under, last_live, Starts};

pub use chart::Chart;
use rules::{Chunk, ChunkNo, Sizes};

// How many of the first `many` rows of the index have a minimum key at or under the key.
pub fn halve(directory: &[u64], many: usize, k: u64) -> usize
    requires { (6 + many * 2 ≤ length directory.now) × Rises directory.now many }
    ensures { Under directory.now many k result }
{
    let mut low: usize = 0;
    let mut high = many;
    // Rows are read by their number: `partition_point` has no slice of them to search.
    while low < high {
        let middle = low + (high - low) / 2;
        if rows::index_row(directory, middle).min <= k {
            low = middle + 1;
        } else {
            high = middle;
        }
    }
    low
}

// The chunk of the last of the first `many` rows that names a live one, or the first live chunk.
pub fn live_from(z: Sizes, directory: &[u64], chunks: &[u64], many: usize) -> ChunkNo
    requires { (6 + many * 2 ≤ length directory.now) × (length chunks.now ≡ z.chunks * 6) }
    ensures { result ≡ last_live directory.now (chunk_rows z.chunks chunks.now) many }
{
    for i in (0..many).rev() {
        let c = rows::index_row(directory, i).chunk;
        if rows::chunk_at(z, chunks, c).status == Chunk::LIVE {
            return c;
        }
    }
    rows::directory_row(directory).first
}

impl Chart<'_> {
    // The live chunk where the index leads: the walk to the key from it answers as from the first.
    pub fn start(&self, k: u64) -> ChunkNo
        ensures { Starts self.now.z self.now.directory.now self.now.chunks.now k result }
    {
        let indexed = rows::directory_row(self.directory).indexed as usize;
        let many = halve(self.directory, indexed, k);
        live_from(self.z, self.directory, self.chunks, many)
    }

    // The live chunk whose range has the key.
    pub fn locate(&self, k: u64) -> ChunkNo
        ensures { (ts es vs ms : List ℕ) → result ≡ locate self.now.z (tables self.now.z self.now.directory.now ts self.now.chunks.now es vs ms) k }
    {
        let c = self.start(k);
        walks::locate(self.z, self.chunks, c, k)
    }
}
