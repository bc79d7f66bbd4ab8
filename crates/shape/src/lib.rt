// The shape that every call tests first (document 01, "Shape, checked by every call first").
#![tactic(auto)]

mod rebalance;
mod stages;
mod tasks;

ghost use Rattle.std.specs.Prelude.{◌≡◌, leb};
ghost use Rattle.rules.specs.Shape.{each, shape};
ghost use Rattle.rows.specs.Seen.{seen};

use rebalance::rebalance_fits;
use rows::Lent;
use tasks::tasks_right;

// The tables have the shape.
pub fn has_shape(s: &Lent) -> bool
    ensures { result ≡ shape s.now.z (seen s.now) }
{
    let d = rows::directory_row(s.directory);
    marks_right(s.marks)
        && (d.first.0 as usize) < s.z.chunks
        && listed::chunks_right(s)
        && listed::chain_right(s)
        && tasks_right(s)
        && stacked::stacks_right(s)
        && rebalance_fits(s)
        && indexed::index_right(s.z, s.directory, s.chunks)
}

// Each mark is 0 or 1; a fold, since an `all`, which leaves early, is not made into vectors.
fn marks_right(marks: &[u64]) -> bool
    ensures { result ≡ each (λ n m. leb m 1) 0 marks.now }
{
    marks.iter().fold(true, |ok, m| ok & (*m <= 1))
}
