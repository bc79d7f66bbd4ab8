// The stacks' part of the shape: linked entries of the held chunk, their keys rising, and then none (document 02, E1).
#![tactic(auto)]

ghost use Rattle.std.specs.Prelude.{◌≡◌, ◌<◌, eqb, ltb, drop};
ghost use Rattle.rules.specs.Words.{◌and◌};
ghost use Rattle.rules.specs.Tables.{stack, chunk};
ghost use Rattle.rules.specs.Shape.{each, all_none, rises_from, stack_right};
ghost use Rattle.rows.specs.Seen.{seen};
ghost use Rattle.stacked.specs.Stacks.{ListsRight};

use rows::Lent;
use rules::{ChunkNo, EntryNo, NONE, Sizes, Task};

// The words of task `n`'s stack are none, from word `from` on; a fold, since an `all`, which leaves early, is not made into vectors.
fn none_from(s: &Lent, n: usize, from: usize) -> bool
    requires { n < s.now.z.tasks }
    ensures { result ≡ all_none (drop from (stack (seen s.now) n)) }
{
    (from..s.z.entries).fold(
        true,
        |ok, i| ok & (rows::stack_at(s.z, s.tasks, n, i) == EntryNo(NONE)),
    )
}

// Task `n`'s stack stands beside the chunk's list: one walk along both.
fn beside(s: &Lent, n: usize, c: ChunkNo) -> bool
    requires { (n < s.now.z.tasks) × (c.0 < s.now.z.chunks) × ListsRight s.now }
    ensures { result ≡ rises_from s.now.z (seen s.now).entries c (chunk (seen s.now) c).head 0 (stack (seen s.now) n) }
{
    let mut at = rows::chunk_at(s.z, s.chunks, c).head;
    let mut i = 0;
    for _ in 0..s.z.entries {
        if s.z.entries <= at.0 as usize {
            return none_from(s, n, i);
        }
        let e = rows::stack_at(s.z, s.tasks, n, i);
        let x = rows::entry_at(s.z, s.entries, c, at);
        let named = e == at;
        at = x.next;
        if named {
            i += 1;
        }
    }
    none_from(s, n, i)
}

// A scan down that holds a chunk.
fn scans_chunk(z: Sizes, t: Task) -> bool
    ensures { result ≡ (eqb t.stage 23 and ltb t.chunk.0 z.chunks) }
{
    (t.stage == 23) & ((t.chunk.0 as usize) < z.chunks)
}

// The stack of task `n`, whose row is `t`: of a scan down that holds a chunk it stands beside that chunk's list, and of any other it is empty.
fn stack_right(s: &Lent, n: usize, t: Task) -> bool
    requires { (n < s.now.z.tasks) × ListsRight s.now }
    ensures { result ≡ stack_right s.now.z (seen s.now) n t }
{
    if scans_chunk(s.z, t) {
        beside(s, n, t.chunk)
    } else {
        none_from(s, n, 0)
    }
}

// Every task's stack.
pub fn stacks_right(s: &Lent) -> bool
    requires { ListsRight s.now }
    ensures { result ≡ each (stack_right s.now.z (seen s.now)) 0 (seen s.now).tasks }
{
    (0..s.z.tasks).all(|i| stack_right(s, i, rows::task_row(s.tasks, i)))
}
