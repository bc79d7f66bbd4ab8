// The calls over lent tables of any sizes: the slices' lengths are tested first, then the shape, then what the call itself refuses.
#![tactic(auto)]

ghost use Rattle.std.specs.Prelude.{◌≡◌};
ghost use Rattle.rules.specs.Kinds.{told_by};
ghost use Rattle.rules.specs.Calls.{Call};
ghost use Rattle.calls.specs.Fits.{Fits};
ghost use Rattle.calls.specs.Readied.{Readied};
ghost use Rattle.calls.specs.Promise.{lent, Promise, Makes, words_lent, words_left};

use rows::{Lent, Shaped};
use rules::{Refusal, Report, Sizes};

// Each slice has the length that the sizes ask.
pub fn is_lent(
    z: Sizes,
    directory: &[u64],
    tasks: &[u64],
    chunks: &[u64],
    entries: &[u64],
    values: &[u64],
    marks: &[u64],
) -> bool
    requires { Fits z }
    ensures { result ≡ lent z (words_lent directory.now tasks.now chunks.now entries.now values.now marks.now) }
{
    directory.len() == rows::DIRECTORY_WORDS + z.chunks * rows::INDEX_WORDS
        && tasks.len() == z.tasks * rows::TASK_WORDS + z.tasks * z.entries
        && chunks.len() == z.chunks * rows::CHUNK_WORDS
        && entries.len() == z.chunks * z.entries * rows::ENTRY_WORDS
        && values.len() == z.handles
        && marks.len() == z.handles
}

// The slices are lent as the sizes ask, and what they hold has the shape; else refusal 10.
pub fn ready<'a>(
    z: Sizes,
    directory: &'a [u64],
    tasks: &'a [u64],
    chunks: &'a [u64],
    entries: &'a [u64],
    values: &'a [u64],
    marks: &'a [u64],
) -> Result<Shaped<'a>, Refusal>
    requires { Fits z }
    ensures { Readied z (words_lent directory.now tasks.now chunks.now entries.now values.now marks.now) result }
{
    if !is_lent(z, directory, tasks, chunks, entries, values, marks) {
        return Err(Refusal::NoShape);
    }
    let lent = Lent {
        z,
        directory,
        tasks,
        chunks,
        entries,
        values,
        marks,
    };
    if !shape::has_shape(&lent) {
        return Err(Refusal::NoShape);
    }
    Ok(Shaped { lent })
}

// The fresh directory.
pub fn fresh(
    z: Sizes,
    directory: &mut [u64],
    tasks: &mut [u64],
    chunks: &mut [u64],
    entries: &mut [u64],
    values: &mut [u64],
    marks: &mut [u64],
) -> Result<Report, Refusal>
    requires { Fits z }
    ensures { Makes z (words_lent directory.old tasks.old chunks.old entries.old values.old marks.old) (words_left directory.new tasks.new chunks.new entries.new values.new marks.new) (told_by result) }
{
    if !is_lent(z, directory, tasks, chunks, entries, values, marks) {
        return Err(Refusal::NoShape);
    }
    making::make(z, directory, tasks, chunks, entries, values, marks);
    Ok(Report::Done)
}

// Task `n` starts an operation.
pub fn start(
    z: Sizes,
    directory: &[u64],
    tasks: &mut [u64],
    chunks: &[u64],
    entries: &[u64],
    values: &[u64],
    marks: &[u64],
    n: u64,
    op: u64,
    k: u64,
    a: u64,
    f: u64,
) -> Result<Report, Refusal>
    requires { Fits z }
    ensures { Promise z (Call.start n op k a f) (words_lent directory.now tasks.old chunks.now entries.now values.now marks.now) (words_left directory.now tasks.new chunks.now entries.now values.now marks.now) (told_by result) }
{
    ready(z, directory, tasks, chunks, entries, values, marks)?;
    starting::start(z, tasks, n, op, k, a, f)
}

// Task `n` takes one step.
pub fn step(
    z: Sizes,
    directory: &[u64],
    tasks: &mut [u64],
    chunks: &mut [u64],
    entries: &mut [u64],
    values: &mut [u64],
    marks: &mut [u64],
    n: u64,
) -> Result<Report, Refusal>
    requires { Fits z }
    ensures { Promise z (Call.step n) (words_lent directory.now tasks.old chunks.old entries.old values.old marks.old) (words_left directory.now tasks.new chunks.new entries.new values.new marks.new) (told_by result) }
{
    ready(z, directory, tasks, chunks, entries, values, marks)?;
    stepping::step(z, directory, tasks, chunks, entries, values, marks, n)
}

// A rebalance begins with the chunk that has the key.
pub fn begin(
    z: Sizes,
    directory: &mut [u64],
    tasks: &[u64],
    chunks: &mut [u64],
    entries: &[u64],
    values: &[u64],
    marks: &[u64],
    k: u64,
) -> Result<Report, Refusal>
    requires { Fits z }
    ensures { Promise z (Call.begin k) (words_lent directory.old tasks.now chunks.old entries.now values.now marks.now) (words_left directory.new tasks.now chunks.new entries.now values.now marks.now) (told_by result) }
{
    ready(z, directory, tasks, chunks, entries, values, marks)?;
    rebalance::begin(z, directory, chunks, k)
}

// The rebalance's next stage.
pub fn go_on(
    z: Sizes,
    directory: &mut [u64],
    tasks: &[u64],
    chunks: &mut [u64],
    entries: &mut [u64],
    values: &[u64],
    marks: &[u64],
) -> Result<Report, Refusal>
    requires { Fits z }
    ensures { Promise z Call.rebalance (words_lent directory.old tasks.now chunks.old entries.old values.now marks.now) (words_left directory.new tasks.now chunks.new entries.new values.now marks.now) (told_by result) }
{
    ready(z, directory, tasks, chunks, entries, values, marks)?;
    rebalance::rebalance(z, directory, tasks, chunks, entries)
}
