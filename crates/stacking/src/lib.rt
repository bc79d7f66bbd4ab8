// A task's stack after its step (document 02, E1): a scan down takes one entry off, or fills it from the chunk that it then holds.
#![tactic(auto)]

ghost use Rattle.std.specs.Prelude.{◌≡◌, Bool, List, [], ℕ, ◌*◌, length, get_or};
ghost use Rattle.rules.specs.Walks.{lies, within_from, over};
ghost use Rattle.rules.specs.Stages.{up_to};
ghost use Rattle.rows.specs.Rows.{entry_rows, stack_rows, tables};
ghost use Rattle.stacking.specs.Stacked.{Stands, Stacked, Restacks};

use rules::{Chunk, ChunkNo, Entry, EntryNo, NONE, Sizes, Task};

// The key lies in the range, whose ends both count.
fn in_range(k: u64, from: u64, to: u64) -> bool
    ensures { result ≡ lies from to k }
{
    (from..=to).contains(&k)
}

// The largest key to fill with: the upper end or, once a chunk is held, the last key below its minimum (0 where that is 0).
fn upper_end(z: Sizes, chunks: &[u64], t: Task) -> u64
    requires { length chunks.now ≡ z.chunks * 6 }
    ensures { (d ts es vs ms : List ℕ) → result ≡ up_to z (tables z d ts chunks.now es vs ms) t }
{
    if z.chunks <= t.chunk.0 as usize {
        return t.argument;
    }
    let x = rows::chunk_at(z, chunks, t.chunk);
    t.argument.min(x.min.saturating_sub(1))
}

// The linked entries in range, from the head on, are laid over task `n`'s stack, from the bottom on.
fn fill(
    z: Sizes,
    tasks: &mut [u64],
    entries: &[u64],
    n: usize,
    c: ChunkNo,
    head: EntryNo,
    from: u64,
    to: u64,
)
    requires { Stands z tasks.old entries.now n }
    ensures { Stacked z tasks.old tasks.new n (over (within_from z (entry_rows (z.chunks * z.entries) entries.now) c from to z.entries head) (get_or (stack_rows z tasks.old) n [])) }
{
    let mut at = head;
    let mut i = 0;
    for _ in 0..z.entries {
        if z.entries <= at.0 as usize {
            return;
        }
        let x = walks::entry_in(z, entries, c, at);
        if in_range(x.key, from, to) {
            rows::put_stack_at(z, tasks, n, i, at);
            i += 1;
        }
        at = x.next;
    }
}

// Task `n`'s stack after the step that has made its row of the one before.
pub fn restack(
    z: Sizes,
    tasks: &mut [u64],
    chunks: &[u64],
    entries: &[u64],
    n: usize,
    before: Task,
    after: Task,
)
    requires { Stands z tasks.old entries.now n × (length chunks.now ≡ z.chunks * 6) }
    ensures { (d vs ms : List ℕ) → Restacks z d tasks.old tasks.new chunks.now entries.now vs ms n before after }
{
    if before.stage != 23 {
        return;
    }
    let depth = walks::stack_depth(z, tasks, n);
    if 0 < depth {
        rows::put_stack_at(z, tasks, n, depth - 1, EntryNo(NONE));
        return;
    }
    if after.stage != 23 {
        return;
    }
    let c = after.chunk;
    let x = rows::chunk_at(z, chunks, c);
    let to = upper_end(z, chunks, before);
    fill(z, tasks, entries, n, c, x.head, before.key, to);
}
