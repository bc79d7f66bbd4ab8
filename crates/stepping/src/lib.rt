// A step of a task: what its stage decides is done (document 01, "Stages of a task").
#![tactic(auto)]

ghost use Rattle.std.specs.Prelude.{◌≡◌, true, ◌≤◌};
ghost use Rattle.rules.specs.Kinds.{told_by};
ghost use Rattle.rules.specs.Shape.{shape};
ghost use Rattle.rules.specs.Calls.{steps};
ghost use Rattle.rules.specs.Rebalance.{gives};
ghost use Rattle.taking.specs.Left.{room};
ghost use Rattle.rows.specs.Rows.{as_lent, as_left, Lends, tables_now};

use rules::{Refusal, Report, Sizes};

// Refusals 1 and 3, or the task's own row and stack and at most one write elsewhere.
pub fn step(
    z: Sizes,
    directory: &[u64],
    tasks: &mut [u64],
    chunks: &mut [u64],
    entries: &mut [u64],
    values: &mut [u64],
    marks: &mut [u64],
    n: u64,
) -> Result<Report, Refusal>
    requires { Lends z directory.now tasks.old chunks.old entries.old values.old marks.old × (shape z (tables_now z directory.now tasks.old chunks.old entries.old values.old marks.old) ≡ true) × (z.handles ≤ room) }
    ensures { gives (as_left z directory.now tasks.new chunks.new entries.new values.new marks.new) (told_by result) ≡ steps z (as_lent z directory.now tasks.old chunks.old entries.old values.old marks.old) n }
{
    let i = n as usize;
    if z.tasks <= i {
        return Err(Refusal::NoTask);
    }
    let t = rows::task_row(tasks, i);
    if t.stage == 0 {
        return Err(Refusal::TaskIdle);
    }
    let x = turn::lend(z, directory, tasks, chunks, entries, values, marks, i, t);
    stacking::restack(z, tasks, chunks, entries, i, t, x.task);
    rows::put_task_row(tasks, i, x.task);
    // refusal 9 is the stage's own report: the task has become idle by it
    Ok(x.report)
}
