// The linked calls under their C names: each is the call of `host`, with its promise.
// A slice crosses as a pointer and a length.

#![tactic(auto)]

ghost use Rattle.rules.specs.Words.{limits};
ghost use Rattle.rules.specs.Calls.{Call};
ghost use Rattle.calls.specs.Promise.{Promise, Makes, words_lent, words_left};
ghost use Rattle.host.specs.Linked.{Answered};

// The fresh directory, over whatever the tables held.
#[unsafe(no_mangle)]
pub extern "C" fn kamrduch_fresh(
    directory: &mut [u64],
    tasks: &mut [u64],
    chunks: &mut [u64],
    entries: &mut [u64],
    values: &mut [u64],
    marks: &mut [u64],
    answer: &mut [u64],
) -> u64
    ensures { Answered (Makes limits (words_lent directory.old tasks.old chunks.old entries.old values.old marks.old) (words_left directory.new tasks.new chunks.new entries.new values.new marks.new)) result answer.old answer.new (words_lent directory.old tasks.old chunks.old entries.old values.old marks.old) (words_left directory.new tasks.new chunks.new entries.new values.new marks.new) }
{
    host::kamrduch_fresh(directory, tasks, chunks, entries, values, marks, answer)
}

// Task `n` starts an operation with a key, an argument and a function.
#[unsafe(no_mangle)]
pub extern "C" fn kamrduch_start(
    directory: &[u64],
    tasks: &mut [u64],
    chunks: &[u64],
    entries: &[u64],
    values: &[u64],
    marks: &[u64],
    n: u64,
    op: u64,
    k: u64,
    a: u64,
    f: u64,
    answer: &mut [u64],
) -> u64
    ensures { Answered (Promise limits (Call.start n op k a f) (words_lent directory.now tasks.old chunks.now entries.now values.now marks.now) (words_left directory.now tasks.new chunks.now entries.now values.now marks.now)) result answer.old answer.new (words_lent directory.now tasks.old chunks.now entries.now values.now marks.now) (words_left directory.now tasks.new chunks.now entries.now values.now marks.now) }
{
    host::kamrduch_start(
        directory, tasks, chunks, entries, values, marks, n, op, k, a, f, answer,
    )
}

// Task `n` takes one step.
#[unsafe(no_mangle)]
pub extern "C" fn kamrduch_step(
    directory: &[u64],
    tasks: &mut [u64],
    chunks: &mut [u64],
    entries: &mut [u64],
    values: &mut [u64],
    marks: &mut [u64],
    n: u64,
    answer: &mut [u64],
) -> u64
    ensures { Answered (Promise limits (Call.step n) (words_lent directory.now tasks.old chunks.old entries.old values.old marks.old) (words_left directory.now tasks.new chunks.new entries.new values.new marks.new)) result answer.old answer.new (words_lent directory.now tasks.old chunks.old entries.old values.old marks.old) (words_left directory.now tasks.new chunks.new entries.new values.new marks.new) }
{
    host::kamrduch_step(directory, tasks, chunks, entries, values, marks, n, answer)
}

// A rebalance begins with the chunk that has the key.
#[unsafe(no_mangle)]
pub extern "C" fn kamrduch_begin(
    directory: &mut [u64],
    tasks: &[u64],
    chunks: &mut [u64],
    entries: &[u64],
    values: &[u64],
    marks: &[u64],
    k: u64,
    answer: &mut [u64],
) -> u64
    ensures { Answered (Promise limits (Call.begin k) (words_lent directory.old tasks.now chunks.old entries.now values.now marks.now) (words_left directory.new tasks.now chunks.new entries.now values.now marks.now)) result answer.old answer.new (words_lent directory.old tasks.now chunks.old entries.now values.now marks.now) (words_left directory.new tasks.now chunks.new entries.now values.now marks.now) }
{
    host::kamrduch_begin(directory, tasks, chunks, entries, values, marks, k, answer)
}

// The rebalance takes its next step.
#[unsafe(no_mangle)]
pub extern "C" fn kamrduch_rebalance(
    directory: &mut [u64],
    tasks: &[u64],
    chunks: &mut [u64],
    entries: &mut [u64],
    values: &[u64],
    marks: &[u64],
    answer: &mut [u64],
) -> u64
    ensures { Answered (Promise limits (Call.rebalance) (words_lent directory.old tasks.now chunks.old entries.old values.now marks.now) (words_left directory.new tasks.now chunks.new entries.new values.now marks.now)) result answer.old answer.new (words_lent directory.old tasks.now chunks.old entries.old values.now marks.now) (words_left directory.new tasks.now chunks.new entries.new values.now marks.now) }
{
    host::kamrduch_rebalance(directory, tasks, chunks, entries, values, marks, answer)
}
