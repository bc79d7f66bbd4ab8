// Start: an operation put at its first stage, holding nothing.
#![tactic(auto)]

ghost use Rattle.std.specs.Prelude.{◌≡◌, List, ℕ, Ok, Err, ◌+◌, ◌*◌, length, eqb, ltb};
ghost use Rattle.rules.specs.declared.Sizes.{Sizes};
ghost use Rattle.rules.specs.declared.Refusal.TheVariants.{NoOperation, ScanBackwards};
ghost use Rattle.rules.specs.Words.{pick, ◌and◌, ◌or◌, get, remove, is_scan, uses_function};
ghost use Rattle.rules.specs.Kinds.{told_by};
ghost use Rattle.rules.specs.Tables.{Tables};
ghost use Rattle.rules.specs.Rebalance.{gives};
ghost use Rattle.rules.specs.Calls.{first_stage, started, starts};
ghost use Rattle.rows.specs.Rows.{tables};
ghost use Rattle.starting.specs.Kinds.{kind_of};

use rules::{Function, Operation, Refusal, Report, Sizes, Task};

// Upsert and compute use a function, one of 1 to 3, or get refusal 5.
pub fn known_function(op: Operation, f: u64) -> Result<u64, Refusal>
    ensures { result ≡ pick (uses_function (kind_of op) and (ltb f 1 or ltb 3 f)) (Err NoOperation) (Ok (pick (uses_function (kind_of op)) f 0)) }
{
    match op {
        Operation::Upsert | Operation::Compute => Function::try_from(f).map(|_| f),
        _ => Ok(0),
    }
}

// A scan whose lower end lies above the upper gets refusal 4.
pub fn forwards(op: Operation, k: u64, a: u64) -> Result<(), Refusal>
    ensures { result ≡ pick (is_scan (kind_of op) and ltb a k) (Err ScanBackwards) (Ok tt) }
{
    match op {
        Operation::Scan | Operation::ScanDown if a < k => Err(Refusal::ScanBackwards),
        _ => Ok(()),
    }
}

// A scan starts at 22, a scan down at 23, and all others at 1, known or not.
pub fn first_stage(op: u64) -> u64
    ensures { result ≡ first_stage op }
{
    match Operation::try_from(op) {
        Ok(Operation::Scan) => 22,
        Ok(Operation::ScanDown) => 23,
        _ => 1,
    }
}

// Upsert and compute keep their function, and no other keeps any.
pub fn kept_function(op: u64, f: u64) -> u64
    ensures { result ≡ pick (uses_function op) f 0 }
{
    match Operation::try_from(op) {
        Ok(Operation::Upsert | Operation::Compute) => f,
        _ => 0,
    }
}

// A get and a remove use no argument.
pub fn kept_argument(op: u64, a: u64) -> u64
    ensures { result ≡ pick (eqb op get or eqb op remove) 0 a }
{
    match Operation::try_from(op) {
        Ok(Operation::Get | Operation::Remove) => 0,
        _ => a,
    }
}

// The row of an operation that starts; arguments that it does not use are kept as 0.
pub fn started(op: u64, k: u64, a: u64, f: u64) -> Task
    ensures { (z : Sizes) (s : Tables) → result ≡ started z s op k a f }
{
    Task {
        stage: first_stage(op),
        operation: op,
        function: kept_function(op, f),
        key: k,
        argument: kept_argument(op, a),
        ..rows::idle_task()
    }
}

// The same row, or refusals 5 and 4.
pub fn asked(op: u64, k: u64, a: u64, f: u64) -> Result<Task, Refusal>
    ensures { (z : Sizes) (s : Tables) → result ≡ pick (ltb op 1 or ltb 8 op or (uses_function op and (ltb f 1 or ltb 3 f))) (Err NoOperation) (pick (is_scan op and ltb a k) (Err ScanBackwards) (Ok (started z s op k a f))) }
{
    let operation = Operation::try_from(op)?;
    known_function(operation, f)?;
    forwards(operation, k, a)?;
    Ok(started(op, k, a, f))
}

// Refusals 1, 2, 5 and 4, or the task's row is that of the operation.
pub fn start(
    z: Sizes,
    tasks: &mut [u64],
    n: u64,
    op: u64,
    k: u64,
    a: u64,
    f: u64,
) -> Result<Report, Refusal>
    requires { length tasks.old ≡ z.tasks * 11 + z.tasks * z.entries }
    ensures { (d cs es vs ms : List ℕ) → gives (tables z d tasks.new cs es vs ms) (told_by result) ≡ starts z (tables z d tasks.old cs es vs ms) n op k a f }
{
    let i = n as usize;
    if z.tasks <= i {
        return Err(Refusal::NoTask);
    }
    let t = rows::task_row(tasks, i);
    if t.stage != 0 {
        return Err(Refusal::TaskAtWork);
    }
    let row = asked(op, k, a, f)?;
    rows::put_task_row(tasks, i, row);
    Ok(Report::Moved)
}
