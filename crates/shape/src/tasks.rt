// The tasks' part of the shape: each task's stage is known, holds what the stage list says, and fits its operation.
ghost use Rattle.std.specs.Prelude.{◌≡◌, true, ◌<◌, get_or};
ghost use Rattle.rules.specs.Shape.{each, held_as, mark_as, flag_as, fits_operation, linked_from, is_idle, holds_entry, holds_right, task_right};
ghost use Rattle.rows.specs.Seen.{seen};
ghost use Rattle.shape.specs.Parts.{number, function_right, numbers_right, hold_of, entry_with_chunk, Held};

use crate::stages::{Holds, How, stage_holds};
use rows::Lent;
use rules::{Chunk, ChunkNo, EntryNo, Function, HandleNo, NONE, Operation, Sizes, Task};

// A number is held as the list says.
fn held(how: How, size: usize, n: u64) -> bool
    ensures { result ≡ held_as (number how) size n }
{
    // By tests, since a match is made a jump through a table: one for each number of each task at work, in every call.
    if how == How::Never {
        return n == NONE;
    }
    if how == How::Perhaps {
        return listed::in_table(size, n);
    }
    (n as usize) < size
}

// The old handle is deleted where the list says so.
fn marked(how: How, marks: &[u64], h: HandleNo) -> bool
    ensures { result ≡ mark_as (number how) (get_or marks.now h.0 0) }
{
    match how {
        How::Deleted => rows::word_at(marks, h) == 1,
        How::Never | How::Always | How::Perhaps => true,
    }
}

// A flag is set as the list says, never and always by their numbers; none is said to be deleted, and the rules have 3 for it.
fn flagged(how: How, n: u64) -> bool
    ensures { result ≡ flag_as (number how) n }
{
    if how == How::Perhaps {
        return n <= 1;
    }
    n == how as u64
}

// The stage is one of the operation's.
fn fits_operation(op: u64, n: u64) -> bool
    ensures { result ≡ fits_operation op n }
{
    match Operation::try_from(op) {
        Ok(Operation::Get) => matches!(n, 1..=4),
        Ok(Operation::PutIfAbsent) => matches!(n, 1..=4 | 6..=12),
        Ok(Operation::Put | Operation::Upsert) => matches!(n, 1..=12),
        Ok(Operation::Compute) => matches!(n, 1..=5 | 13..=15),
        Ok(Operation::Remove) => matches!(n, 1..=5 | 13..=21),
        Ok(Operation::Scan) => n == 22,
        Ok(Operation::ScanDown) => n == 23,
        Err(_) => false,
    }
}

// The function is known where the operation uses one.
fn function_right(op: u64, function: u64) -> bool
    ensures { result ≡ function_right op function }
{
    match Operation::try_from(op) {
        Ok(Operation::Upsert | Operation::Compute) => Function::try_from(function).is_ok(),
        _ => true,
    }
}

// The row of an idle task, but for its stage.
fn is_idle(t: Task) -> bool
    ensures { result ≡ is_idle t }
{
    t == Task {
        stage: t.stage,
        ..rows::idle_task()
    }
}

// Entry `x` is in the chunk's list.
fn is_linked(s: &Lent, c: ChunkNo, head: EntryNo, x: EntryNo) -> bool
    requires { c.0 < s.now.z.chunks }
    ensures { result ≡ linked_from s.now.z (seen s.now).entries c s.now.z.entries head x }
{
    let mut at = head;
    for _ in 0..s.z.entries {
        if s.z.entries <= at.0 as usize {
            return false;
        }
        if at == x {
            return true;
        }
        at = rows::entry_at(s.z, s.entries, c, at).next;
    }
    false
}

// The task's entry is used, has the task's key, and is linked except at 7.
fn holds_entry(s: &Lent, t: Task) -> bool
    requires { Held s.now.z t }
    ensures { result ≡ holds_entry s.now.z (seen s.now) t }
{
    let row = rows::chunk_at(s.z, s.chunks, t.chunk);
    let x = rows::entry_at(s.z, s.entries, t.chunk, t.entry);
    if !((t.entry.0 < row.used) & (x.key == t.key)) {
        return false;
    }
    if t.stage == 7 {
        return true;
    }
    is_linked(s, t.chunk, row.head, t.entry)
}

// The task's numbers and flags are as the row says.
fn numbers_right(z: Sizes, t: Task, h: Holds) -> bool
    ensures { result ≡ numbers_right z t (hold_of h) }
{
    held(h.chunk, z.chunks, t.chunk.0)
        & held(h.entry, z.entries, t.entry.0)
        & held(h.old, z.handles, t.old.0)
        & held(h.new, z.handles, t.new.0)
        & flagged(h.published, t.published)
        & flagged(h.swapped, t.swapped)
}

// The task holds what the row says.
fn holds_right(s: &Lent, t: Task, h: Holds) -> bool
    requires { entry_with_chunk h ≡ true }
    ensures { result ≡ holds_right s.now.z (seen s.now) t (hold_of h) }
{
    if !(numbers_right(s.z, t, h) & marked(h.old, s.marks, t.old)) {
        return false;
    }
    if s.z.chunks <= t.chunk.0 as usize {
        return true;
    }
    let row = rows::chunk_at(s.z, s.chunks, t.chunk);
    if row.status == Chunk::UNUSED {
        return false;
    }
    match h.entry {
        How::Never => true,
        How::Always | How::Perhaps | How::Deleted => holds_entry(s, t),
    }
}

// A task is idle, or its stage fits its operation and holds what the list says.
fn task_right(s: &Lent, t: Task) -> bool
    ensures { result ≡ task_right s.now.z (seen s.now) 0 t }
{
    if t.stage == 0 {
        return is_idle(t);
    }
    fits_operation(t.operation, t.stage)
        && function_right(t.operation, t.function)
        && holds_right(s, t, stage_holds(t.stage))
}

// Every task.
pub(crate) fn tasks_right(s: &Lent) -> bool
    ensures { result ≡ each (task_right s.now.z (seen s.now)) 0 (seen s.now).tasks }
{
    (0..s.z.tasks).all(|i| task_right(s, rows::task_row(s.tasks, i)))
}
