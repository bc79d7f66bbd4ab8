// One stage, over a task that is lent (document 01, "Stages of a task"): the task's own record moves on one stage, and what the stage names is written.
#![tactic(auto)]

ghost use Rattle.std.specs.Prelude.{◌≡◌, ◌<◌};
ghost use Rattle.rules.specs.Stages.{decide};
ghost use Rattle.rules.specs.Rebalance.{gives};
ghost use Rattle.rows.specs.Rows.{as_lent, as_left, Lends};
ghost use Rattle.locating.specs.Charted.{Charted};
ghost use Rattle.taking.specs.Slotted.{Slotted};
ghost use Rattle.outcome.specs.Lengths.{Held};
ghost use Rattle.turn.specs.Turns.{writes};

use outcome::Read;
use rows::Lent;
use rules::{Decision, Report, Sizes, Task};

// What a stage leaves of its task, and the report.
#[derive(Clone, Copy)]
pub struct Turned {
    pub task: Task,
    pub report: Report,
}

// The stage of task number `n`, with the task by value.
pub fn move_on(
    z: Sizes,
    directory: &[u64],
    tasks: &[u64],
    chunks: &mut [u64],
    entries: &mut [u64],
    values: &mut [u64],
    marks: &mut [u64],
    n: usize,
    t: Task,
) -> Turned
    requires { Lends z directory.now tasks.now chunks.old entries.old values.old marks.old × Held z t × (t.stage < 24) × Charted z directory.now chunks.old × (n < z.tasks) × Slotted z chunks.old entries.old }
    ensures { (result.task ≡ (decide z (as_lent z directory.now tasks.now chunks.old entries.old values.old marks.old) n t).task) × (gives (as_left z directory.now tasks.now chunks.new entries.new values.new marks.new) result.report ≡ writes z (as_lent z directory.now tasks.now chunks.old entries.old values.old marks.old) n t) }
{
    let lent = Lent {
        z,
        directory,
        tasks,
        chunks: &*chunks,
        entries: &*entries,
        values: &*values,
        marks: &*marks,
    };
    let x = stages::decide(&Read { lent }, n, t);
    writes::apply(z, chunks, entries, values, marks, x.write);
    Turned {
        task: x.task,
        report: x.report,
    }
}

// The stage, with the task lent.
pub fn step(
    z: Sizes,
    directory: &[u64],
    tasks: &[u64],
    chunks: &mut [u64],
    entries: &mut [u64],
    values: &mut [u64],
    marks: &mut [u64],
    n: usize,
    t: &mut Task,
) -> Report
    requires { Lends z directory.now tasks.now chunks.old entries.old values.old marks.old × Held z t.now × (t.now.stage < 24) × Charted z directory.now chunks.old × (n < z.tasks) × Slotted z chunks.old entries.old }
    ensures { (t.exit.now ≡ (decide z (as_lent z directory.now tasks.now chunks.old entries.old values.old marks.old) n t.entry.now).task) × (gives (as_left z directory.now tasks.now chunks.new entries.new values.new marks.new) result ≡ writes z (as_lent z directory.now tasks.now chunks.old entries.old values.old marks.old) n t.entry.now) }
{
    let x = move_on(z, directory, tasks, chunks, entries, values, marks, n, *t);
    *t = x.task;
    x.report
}

// The stage, with the task lent to the step and handed back.
pub fn lend(
    z: Sizes,
    directory: &[u64],
    tasks: &[u64],
    chunks: &mut [u64],
    entries: &mut [u64],
    values: &mut [u64],
    marks: &mut [u64],
    n: usize,
    t: Task,
) -> Turned
    requires { Lends z directory.now tasks.now chunks.old entries.old values.old marks.old × Held z t × (t.stage < 24) × Charted z directory.now chunks.old × (n < z.tasks) × Slotted z chunks.old entries.old }
    ensures { (result.task ≡ (decide z (as_lent z directory.now tasks.now chunks.old entries.old values.old marks.old) n t).task) × (gives (as_left z directory.now tasks.now chunks.new entries.new values.new marks.new) result.report ≡ writes z (as_lent z directory.now tasks.now chunks.old entries.old values.old marks.old) n t) }
{
    let mut own = t;
    let report = step(
        z, directory, tasks, chunks, entries, values, marks, n, &mut own,
    );
    Turned { task: own, report }
}
