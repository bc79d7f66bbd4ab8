// What a stage's outcome is made of (document 01, "Stages of a task"): a task's row afterwards, and the decision.
#![tactic(auto)]

mod read;

ghost use Rattle.std.specs.Prelude.{◌≡◌, get_or};
ghost use Rattle.rules.specs.declared.Write.TheVariants as write;
ghost use Rattle.rules.specs.declared.Report.TheVariants as report;
ghost use Rattle.rules.specs.declared.Sizes.{Sizes};
ghost use Rattle.rules.specs.Words.{inserts, no_chunk, no_entry, no_handle};
ghost use Rattle.rules.specs.Tables.{Tables};
ghost use Rattle.rules.specs.Stages.{goes_to, moves, restarts, finishes, finishes_absent, stays};

pub use read::Read;
use rules::{ChunkNo, Decision, EntryNo, HandleNo, NONE, Operation, Refusal, Report, Task, Write};

// A stage moves on, and its task's row is this one.
pub fn moves(task: Task, w: Write) -> Decision
    ensures { result ≡ moves task w }
{
    Decision {
        task,
        write: w,
        report: Report::Moved,
    }
}

// The operation goes on at a stage, with an entry of its chunk and no handle.
pub fn with_entry(t: Task, stage: u64, entry: EntryNo) -> Task
    ensures { result ≡ goes_to t stage t.chunk entry no_handle no_handle 0 0 }
{
    Task {
        stage,
        entry,
        old: HandleNo(NONE),
        new: HandleNo(NONE),
        published: 0,
        swapped: 0,
        ..t
    }
}

// What is held is dropped; operation, key and arguments stay.
pub fn restarts(t: Task, why: Report) -> Decision
    ensures { result ≡ restarts t why }
{
    Decision {
        task: Task {
            stage: 1,
            chunk: ChunkNo(NONE),
            entry: EntryNo(NONE),
            old: HandleNo(NONE),
            new: HandleNo(NONE),
            published: 0,
            swapped: 0,
            ..t
        },
        write: Write::Nothing,
        report: why,
    }
}

// A remove that has set its mark locates its key again, at 16: of what it held the old handle stays.
pub fn seeks_again(t: Task) -> Task
    ensures { result ≡ goes_to t 16 no_chunk no_entry t.old no_handle 0 0 }
{
    Task {
        stage: 16,
        chunk: ChunkNo(NONE),
        entry: EntryNo(NONE),
        new: HandleNo(NONE),
        published: 0,
        swapped: 0,
        ..t
    }
}

// The whole row is cleared.
pub fn finishes(w: Write, answer: Report) -> Decision
    ensures { result ≡ finishes w answer }
{
    Decision {
        task: rows::idle_task(),
        write: w,
        report: answer,
    }
}

// A get or remove answers absent, a compute false.
pub fn finishes_absent(t: Task) -> Decision
    ensures { result ≡ finishes_absent t }
{
    match Operation::try_from(t.operation) {
        Ok(Operation::Compute) => finishes(Write::Nothing, Report::False),
        _ => finishes(Write::Nothing, Report::Absent),
    }
}

// Finished, and the value that stands in the old handle is given back (document 02, E2). Of the tables it asks for the values alone.
pub fn gives_back(values: &[u64], t: Task, w: Write) -> Decision
    ensures { result ≡ finishes w (report.Value (get_or values.now t.old.0 0)) }
{
    finishes(w, Report::Value(rows::word_at(values, t.old)))
}

// The row is this one, nothing else changes, and the step answers.
pub fn tells(t: Task, answer: Report) -> Decision
    ensures { result ≡ record { task = t; write = write.Nothing; report = answer } }
{
    Decision {
        task: t,
        write: Write::Nothing,
        report: answer,
    }
}

// An idle task, or a number that is no stage.
pub fn stays(t: Task) -> Decision
    ensures { (z : Sizes) (s : Tables) → result ≡ stays z s t }
{
    tells(t, Report::from(Refusal::TaskIdle))
}

// Put, putIfAbsent and upsert.
pub fn inserts(operation: u64) -> bool
    ensures { result ≡ inserts operation }
{
    matches!(
        Operation::try_from(operation),
        Ok(Operation::Put | Operation::PutIfAbsent | Operation::Upsert),
    )
}
