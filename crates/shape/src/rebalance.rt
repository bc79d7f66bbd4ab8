// The rebalance's part of the shape: its chunks fit its stage, and no other is frozen, new or retired.
ghost use Rattle.std.specs.Prelude.{◌≡◌};
ghost use Rattle.rules.specs.Words.{pick};
ghost use Rattle.rules.specs.Shape.{each, rebalance_fits};
ghost use Rattle.rows.specs.Seen.{seen};
ghost use Rattle.shape.specs.Parts.{fits_in, StageFits};

use rows::Lent;
use rules::{Chunk, ChunkNo, Directory, NONE, RebalanceStage, Sizes};

// The one status or the other.
fn one_of(test: bool, a: u64, b: u64) -> u64
    ensures { result ≡ pick test a b }
{
    if test { a } else { b }
}

// Chunk `n`, whose row is `x`, is the old one, one of the new ones, or neither.
fn chunk_fits(d: Directory, n: usize, x: Chunk) -> bool
    ensures { result ≡ fits_in d n x }
{
    // The row's word as the rules take it, from stage 4 (index) on: any number, also one that names no stage.
    let swapped = 4 <= d.stage;
    if d.old.0 as usize == n {
        return (x.frozen == 1) & (x.status == one_of(swapped, Chunk::RETIRED, Chunk::LIVE));
    }
    if (d.new.0 as usize == n) | (d.second.0 as usize == n) {
        return (x.frozen == 0) & (x.status == one_of(swapped, Chunk::LIVE, Chunk::NEW));
    }
    (x.frozen == 0) & ((x.status == Chunk::UNUSED) | (x.status == Chunk::LIVE))
}

// Every chunk.
fn chunks_fit(s: &Lent, d: Directory) -> bool
    ensures { result ≡ each (fits_in d) 0 (seen s.now).chunks }
{
    (0..s.z.chunks).all(|i| chunk_fits(d, i, rows::chunk_row(s.chunks, i)))
}

// The rebalance's own numbers fit its stage, where two chunks are unused or not; 0 is no rebalance, which has no name among the stages.
fn stage_fits(z: Sizes, d: Directory, two: bool) -> bool
    ensures { StageFits z d two result }
{
    let old = (d.old.0 as usize) < z.chunks;
    let none = (d.new == ChunkNo(NONE)) & (d.second == ChunkNo(NONE));
    match RebalanceStage::try_from(d.stage) {
        Ok(RebalanceStage::Drain | RebalanceStage::Copy) => none & old & two,
        Ok(RebalanceStage::SwapIn | RebalanceStage::Index | RebalanceStage::Release) => {
            let second = listed::in_table(z.chunks, d.second.0);
            let apart = (d.new != d.second) & (d.old != d.new) & (d.old != d.second);
            old & ((d.new.0 as usize) < z.chunks) & second & apart
        }
        Err(_) => (d.stage == 0) & (d.old == ChunkNo(NONE)) & none,
    }
}

// The rebalance and every chunk.
pub(crate) fn rebalance_fits(s: &Lent) -> bool
    ensures { result ≡ rebalance_fits s.now.z (seen s.now) }
{
    let d = rows::directory_row(s.directory);
    let unused = listed::status_count(s.z, s.chunks, Chunk::UNUSED);
    stage_fits(s.z, d, 2 <= unused) && chunks_fit(s, d)
}
