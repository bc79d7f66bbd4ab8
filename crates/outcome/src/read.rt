// The lent tables as a stage reads them: the chain and the index are right, and a chunk's slots past its used ones name no handle.
ghost use Rattle.std.specs.Prelude.{◌≡◌, ℕ, List};
ghost use Rattle.rules.specs.Walks.{locate};
ghost use Rattle.rows.specs.Rows.{tables};
ghost use Rattle.locating.specs.Charted.{Charted};
ghost use Rattle.taking.specs.Slotted.{Slotted};

use locating::Chart;
use rows::Lent;
use rules::ChunkNo;

#[derive(Clone, Copy)]
pub struct Read<'a> {
    pub lent: Lent<'a>,
    ghost charted: { Charted lent.z lent.directory.now lent.chunks.now },
    ghost slotted: { Slotted lent.z lent.chunks.now lent.entries.now },
}

impl<'a> Read<'a> {
    // What of them is read to locate a key.
    pub fn chart(&self) -> Chart<'a>
        ensures { (result.z ≡ self.now.lent.z) × (result.directory.now ≡ self.now.lent.directory.now) × (result.chunks.now ≡ self.now.lent.chunks.now) }
    {
        Chart {
            z: self.lent.z,
            directory: self.lent.directory,
            chunks: self.lent.chunks,
        }
    }

    // The live chunk whose range has the key.
    pub fn locate(&self, k: u64) -> ChunkNo
        ensures { (ts es vs ms : List ℕ) → result ≡ locate self.now.lent.z (tables self.now.lent.z self.now.lent.directory.now ts self.now.lent.chunks.now es vs ms) k }
    {
        self.chart().locate(k)
    }
}
