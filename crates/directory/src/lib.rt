// The directory at document 01's limits: the public calls. Each takes lent tables of any length and any words, and checks for itself.
#![tactic(auto)]

ghost use Rattle.rules.specs.Words.{limits};
ghost use Rattle.rules.specs.Calls.{Call};
ghost use Rattle.calls.specs.Promise.{Promise, Makes, words_lent, words_left};

use rules::{Directory, Report, Sizes};

// The fresh directory, over whatever the tables held.
pub fn fresh(
    directory: &mut [u64],
    tasks: &mut [u64],
    chunks: &mut [u64],
    entries: &mut [u64],
    values: &mut [u64],
    marks: &mut [u64],
) -> Report
    ensures { Makes limits (words_lent directory.old tasks.old chunks.old entries.old values.old marks.old) (words_left directory.new tasks.new chunks.new entries.new values.new marks.new) result }
{
    calls::fresh(
        Directory::sizes(),
        directory,
        tasks,
        chunks,
        entries,
        values,
        marks,
    )
    .into()
}

// Task `n` starts an operation with a key, an argument and a function.
pub fn start(
    directory: &[u64],
    tasks: &mut [u64],
    chunks: &[u64],
    entries: &[u64],
    values: &[u64],
    marks: &[u64],
    n: u64,
    op: u64,
    k: u64,
    a: u64,
    f: u64,
) -> Report
    ensures { Promise limits (Call.start n op k a f) (words_lent directory.now tasks.old chunks.now entries.now values.now marks.now) (words_left directory.now tasks.new chunks.now entries.now values.now marks.now) result }
{
    calls::start(
        Directory::sizes(),
        directory,
        tasks,
        chunks,
        entries,
        values,
        marks,
        n,
        op,
        k,
        a,
        f,
    )
    .into()
}

// Task `n` takes one step.
pub fn step(
    directory: &[u64],
    tasks: &mut [u64],
    chunks: &mut [u64],
    entries: &mut [u64],
    values: &mut [u64],
    marks: &mut [u64],
    n: u64,
) -> Report
    ensures { Promise limits (Call.step n) (words_lent directory.now tasks.old chunks.old entries.old values.old marks.old) (words_left directory.now tasks.new chunks.new entries.new values.new marks.new) result }
{
    calls::step(
        Directory::sizes(),
        directory,
        tasks,
        chunks,
        entries,
        values,
        marks,
        n,
    )
    .into()
}

// A rebalance begins with the chunk that has the key.
pub fn begin(
    directory: &mut [u64],
    tasks: &[u64],
    chunks: &mut [u64],
    entries: &[u64],
    values: &[u64],
    marks: &[u64],
    k: u64,
) -> Report
    ensures { Promise limits (Call.begin k) (words_lent directory.old tasks.now chunks.old entries.now values.now marks.now) (words_left directory.new tasks.now chunks.new entries.now values.now marks.now) result }
{
    calls::begin(
        Directory::sizes(),
        directory,
        tasks,
        chunks,
        entries,
        values,
        marks,
        k,
    )
    .into()
}

// The rebalance takes its next step.
pub fn rebalance(
    directory: &mut [u64],
    tasks: &[u64],
    chunks: &mut [u64],
    entries: &mut [u64],
    values: &[u64],
    marks: &[u64],
) -> Report
    ensures { Promise limits (Call.rebalance) (words_lent directory.old tasks.now chunks.old entries.old values.now marks.now) (words_left directory.new tasks.now chunks.new entries.new values.now marks.now) result }
{
    calls::go_on(
        Directory::sizes(),
        directory,
        tasks,
        chunks,
        entries,
        values,
        marks,
    )
    .into()
}
