// Stages 4 to 9 (document 01, "Stages of a task"): check, apply, take entry, link, take handle, write.
#![tactic(auto)]

ghost use Rattle.std.specs.Prelude.{◌≡◌, ℕ, ◌<◌, List};
ghost use Rattle.rules.specs.declared.Sizes.{Sizes};
ghost use Rattle.rules.specs.declared.Write.TheVariants as write;
ghost use Rattle.rules.specs.Tables.{Tables, value};
ghost use Rattle.rules.specs.Stages.{applied, checks, applies, takes_entry, links, takes_handle, writes};
ghost use Rattle.rows.specs.Rows.{tables};
ghost use Rattle.rows.specs.Seen.{seen};
ghost use Rattle.taking.specs.Slotted.{Slotted};
ghost use Rattle.outcome.specs.Lengths.{Tasks};

use outcome::{
    finishes, finishes_absent, gives_back, inserts, moves, restarts, seeks_again, with_entry,
};
use rows::Lent;
use rules::{
    Chunk, Decision, EntryNo, Function, HandleNo, NONE, Operation, Refusal, Report, Sizes, Task,
    Write,
};

// 4 check
pub fn check(s: &Lent, t: Task) -> Decision
    ensures { (z : Sizes) (d ts cs es : List ℕ) → result ≡ checks z (tables z d ts cs es s.now.values.now s.now.marks.now) t }
{
    let operation = Operation::try_from(t.operation);
    if rows::word_at(s.marks, t.old) == 0 {
        return match operation {
            Ok(Operation::Get) => gives_back(s.values, t, Write::Nothing),
            Ok(Operation::PutIfAbsent) => finishes(Write::Nothing, Report::False),
            _ => moves(Task { stage: 5, ..t }, Write::Nothing),
        };
    }
    match operation {
        Ok(Operation::Get) => finishes_absent(t),
        Ok(Operation::Put | Operation::PutIfAbsent | Operation::Upsert) => {
            moves(Task { stage: 8, ..t }, Write::Nothing)
        }
        _ => moves(Task { stage: 13, ..t }, Write::Nothing),
    }
}

// The functions of upsert and compute: add modulo 2^64, the larger, bitwise or.
pub fn applied(f: u64, amount: u64, v: u64) -> u64
    ensures { result ≡ applied f amount v }
{
    match Function::try_from(f) {
        Ok(Function::Add) => v.wrapping_add(amount),
        Ok(Function::Larger) => v.max(amount),
        _ => v | amount,
    }
}

// 5 apply
pub fn apply(s: &Lent, t: Task) -> Decision
    ensures { (z : Sizes) (d ts cs es : List ℕ) → result ≡ applies z (tables z d ts cs es s.now.values.now s.now.marks.now) t }
{
    let h = t.old;
    if rows::word_at(s.marks, h) != 0 {
        if inserts(t.operation) {
            return restarts(t, Report::Lost);
        }
        return moves(Task { stage: 13, ..t }, Write::Nothing);
    }
    match Operation::try_from(t.operation) {
        Ok(Operation::Remove) => moves(seeks_again(t), Write::Delete(h)),
        Ok(Operation::Put) => gives_back(s.values, t, Write::Store(h, t.argument)),
        Ok(Operation::Compute) => finishes(stores_applied(s, t), Report::True),
        _ => finishes(stores_applied(s, t), Report::Done),
    }
}

// 6 take entry
pub fn take_entry(s: &Lent, t: Task) -> Decision
    ensures { (d ts es vs ms : List ℕ) → result ≡ takes_entry s.now.z (tables s.now.z d ts s.now.chunks.now es vs ms) t }
{
    let x = rows::chunk_at(s.z, s.chunks, t.chunk);
    if x.frozen != 0 {
        return restarts(t, Report::Frozen);
    }
    if s.z.entries <= x.used as usize {
        return restarts(t, Report::Full);
    }
    let taken = with_entry(t, 7, EntryNo(x.used));
    moves(taken, Write::Slot(t.chunk, t.key))
}

// 7 link
pub fn link(s: &Lent, t: Task) -> Decision
    requires { t.chunk.0 < s.now.z.chunks }
    ensures { (d ts vs ms : List ℕ) → result ≡ links s.now.z (tables s.now.z d ts s.now.chunks.now s.now.entries.now vs ms) t }
{
    let x = rows::chunk_at(s.z, s.chunks, t.chunk);
    if x.frozen != 0 {
        return restarts(t, Report::Frozen);
    }
    if let Some(other) = walks::find(s.z, s.entries, t.chunk, x.head, t.key) {
        return moves(with_entry(t, 8, other), Write::Nothing);
    }
    let below = walks::place(s.z, s.entries, t.chunk, x.head, t.key).unwrap_or(EntryNo(NONE));
    moves(Task { stage: 8, ..t }, Write::Link(t.chunk, t.entry, below))
}

// 8 take handle. It asks for the tables that it reads and no more.
pub fn take_handle(z: Sizes, tasks: &[u64], chunks: &[u64], entries: &[u64], t: Task) -> Decision
    requires { Tasks z tasks.now × Slotted z chunks.now entries.now }
    ensures { (d vs ms : List ℕ) → result ≡ takes_handle z (tables z d tasks.now chunks.now entries.now vs ms) t }
{
    match taking::lowest_free(z, chunks, entries, tasks) {
        Some(new) => {
            let next = Task {
                stage: 9,
                new,
                published: 0,
                swapped: 0,
                ..t
            };
            moves(next, Write::Fresh(new))
        }
        None => finishes(Write::Nothing, Report::from(Refusal::NoHandle)),
    }
}

// 9 write
pub fn write(t: Task) -> Decision
    ensures { (z : Sizes) (s : Tables) → result ≡ writes z s t }
{
    moves(Task { stage: 10, ..t }, Write::Store(t.new, t.argument))
}

// The old handle's value is stored again, the task's function applied to it.
fn stores_applied(s: &Lent, t: Task) -> Write
    ensures { result ≡ write.Store t.old (applied t.function t.argument (value (seen s.now) t.old)) }
{
    Write::Store(
        t.old,
        applied(t.function, t.argument, rows::word_at(s.values, t.old)),
    )
}
