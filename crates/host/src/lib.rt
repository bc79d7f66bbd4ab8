// The public calls for a host that links them: each gives the report's number, and leaves its two values in the two words of `answer`.
// Nothing is asked of a length or of a word; `host_c` exports them.
#![tactic(auto)]

ghost use Rattle.std.specs.Prelude.{◌≡◌, ℕ, length};
ghost use Rattle.rules.specs.Told.{told};
ghost use Rattle.rules.specs.Words.{limits};
ghost use Rattle.rules.specs.Calls.{Call};
ghost use Rattle.calls.specs.Promise.{Promise, Makes, words_lent, words_left};
ghost use Rattle.host.specs.Linked.{Says, Answered};

use rules::Report;

// The report's number.
fn number(r: Report) -> u64
    ensures { result ≡ (told r).number }
{
    match r {
        Report::Refused(_) => 0,
        Report::Moved => 1,
        Report::Frozen => 2,
        Report::Full => 3,
        Report::Lost => 4,
        Report::Pair(_, _) => 5,
        Report::Value(_) => 6,
        Report::Absent => 7,
        Report::Done => 8,
        Report::True => 9,
        Report::False => 10,
        Report::Waiting => 11,
        Report::Finished => 12,
    }
}

// The report's two values, or 0.
fn values_of(r: Report) -> (u64, u64)
    ensures { (result.0 ≡ (told r).first) × (result.1 ≡ (told r).second) }
{
    match r {
        Report::Refused(n) => (n, 0),
        Report::Pair(k, v) => (k, v),
        Report::Value(v) => (v, 0),
        _ => (0, 0),
    }
}

// The report, told to the host. The test of the answer's length stands in each of the five: a call that a closure makes would leave the tables' words unsaid where it is not made.
fn tell(r: Report, answer: &mut [u64]) -> u64
    requires { length answer.old ≡ 2 }
    ensures { Says result answer.new r }
{
    let (first, second) = values_of(r);
    answer[0] = first;
    answer[1] = second;
    number(r)
}

// The fresh directory, over whatever the tables held.
pub fn kamrduch_fresh(
    directory: &mut [u64],
    tasks: &mut [u64],
    chunks: &mut [u64],
    entries: &mut [u64],
    values: &mut [u64],
    marks: &mut [u64],
    answer: &mut [u64],
) -> u64
    ensures { Answered (Makes limits (words_lent directory.old tasks.old chunks.old entries.old values.old marks.old) (words_left directory.new tasks.new chunks.new entries.new values.new marks.new)) result answer.old answer.new (words_lent directory.old tasks.old chunks.old entries.old values.old marks.old) (words_left directory.new tasks.new chunks.new entries.new values.new marks.new) }
{
    if answer.len() != 2 {
        return 0;
    }
    let r = directory::fresh(directory, tasks, chunks, entries, values, marks);
    tell(r, answer)
}

// Task `n` starts an operation with a key, an argument and a function.
pub fn kamrduch_start(
    directory: &[u64],
    tasks: &mut [u64],
    chunks: &[u64],
    entries: &[u64],
    values: &[u64],
    marks: &[u64],
    n: u64,
    op: u64,
    k: u64,
    a: u64,
    f: u64,
    answer: &mut [u64],
) -> u64
    ensures { Answered (Promise limits (Call.start n op k a f) (words_lent directory.now tasks.old chunks.now entries.now values.now marks.now) (words_left directory.now tasks.new chunks.now entries.now values.now marks.now)) result answer.old answer.new (words_lent directory.now tasks.old chunks.now entries.now values.now marks.now) (words_left directory.now tasks.new chunks.now entries.now values.now marks.now) }
{
    if answer.len() != 2 {
        return 0;
    }
    let r = directory::start(
        directory, tasks, chunks, entries, values, marks, n, op, k, a, f,
    );
    tell(r, answer)
}

// Task `n` takes one step.
pub fn kamrduch_step(
    directory: &[u64],
    tasks: &mut [u64],
    chunks: &mut [u64],
    entries: &mut [u64],
    values: &mut [u64],
    marks: &mut [u64],
    n: u64,
    answer: &mut [u64],
) -> u64
    ensures { Answered (Promise limits (Call.step n) (words_lent directory.now tasks.old chunks.old entries.old values.old marks.old) (words_left directory.now tasks.new chunks.new entries.new values.new marks.new)) result answer.old answer.new (words_lent directory.now tasks.old chunks.old entries.old values.old marks.old) (words_left directory.now tasks.new chunks.new entries.new values.new marks.new) }
{
    if answer.len() != 2 {
        return 0;
    }
    let r = directory::step(directory, tasks, chunks, entries, values, marks, n);
    tell(r, answer)
}

// A rebalance begins with the chunk that has the key.
pub fn kamrduch_begin(
    directory: &mut [u64],
    tasks: &[u64],
    chunks: &mut [u64],
    entries: &[u64],
    values: &[u64],
    marks: &[u64],
    k: u64,
    answer: &mut [u64],
) -> u64
    ensures { Answered (Promise limits (Call.begin k) (words_lent directory.old tasks.now chunks.old entries.now values.now marks.now) (words_left directory.new tasks.now chunks.new entries.now values.now marks.now)) result answer.old answer.new (words_lent directory.old tasks.now chunks.old entries.now values.now marks.now) (words_left directory.new tasks.now chunks.new entries.now values.now marks.now) }
{
    if answer.len() != 2 {
        return 0;
    }
    let r = directory::begin(directory, tasks, chunks, entries, values, marks, k);
    tell(r, answer)
}

// The rebalance takes its next step.
pub fn kamrduch_rebalance(
    directory: &mut [u64],
    tasks: &[u64],
    chunks: &mut [u64],
    entries: &mut [u64],
    values: &[u64],
    marks: &[u64],
    answer: &mut [u64],
) -> u64
    ensures { Answered (Promise limits (Call.rebalance) (words_lent directory.old tasks.now chunks.old entries.old values.now marks.now) (words_left directory.new tasks.now chunks.new entries.new values.now marks.now)) result answer.old answer.new (words_lent directory.old tasks.now chunks.old entries.old values.now marks.now) (words_left directory.new tasks.now chunks.new entries.new values.now marks.now) }
{
    if answer.len() != 2 {
        return 0;
    }
    let r = directory::rebalance(directory, tasks, chunks, entries, values, marks);
    tell(r, answer)
}
