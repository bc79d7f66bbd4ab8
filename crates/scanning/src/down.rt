// Stage 23: the scan from the top key down (document 02, E1).
ghost use Rattle.std.specs.Prelude.{◌≡◌, List, ℕ, ◌<◌};
ghost use Rattle.rules.specs.declared.Write.TheVariants as write;
ghost use Rattle.rules.specs.Words.{no_entry, no_handle};
ghost use Rattle.rules.specs.Walks.{locate};
ghost use Rattle.rules.specs.Stages.{goes_to, moves, takes_off, scans_down};
ghost use Rattle.rows.specs.Rows.{tables};
ghost use Rattle.rows.specs.Seen.{seen};

use crate::up::is_undeleted;
use outcome::{Read, finishes, moves, tells};
use rows::Lent;
use rules::{Chunk, ChunkNo, Decision, Entry, EntryNo, HandleNo, NONE, Report, Task, Write};

// One entry is off the stack: a pair where it names an undeleted handle.
pub fn take_off(s: &Lent, t: Task, e: EntryNo) -> Decision
    requires { e.0 < s.now.z.entries }
    ensures { (d ts cs : List ℕ) → result ≡ takes_off s.now.z (tables s.now.z d ts cs s.now.entries.now s.now.values.now s.now.marks.now) t e }
{
    let x = walks::entry_in(s.z, s.entries, t.chunk, e);
    if is_undeleted(s.z, s.marks, x.handle) {
        let v = rows::word_at(s.values, x.handle);
        return tells(t, Report::Pair(x.key, v));
    }
    tells(t, Report::Moved)
}

// The stack is to be filled from the live chunk that has the key. As a call of its own it would have its decision copied by `memcpy`, which the archive may not ask for.
#[inline(always)]
pub fn fill_from(s: &Read, t: Task, k: u64) -> Decision
    ensures { (ts es vs ms : List ℕ) → result ≡ moves (goes_to t 23 (locate s.now.lent.z (tables s.now.lent.z s.now.lent.directory.now ts s.now.lent.chunks.now es vs ms) k) no_entry no_handle no_handle 0 0) write.Nothing }
{
    let filling = Task {
        stage: 23,
        chunk: s.locate(k),
        entry: EntryNo(NONE),
        old: HandleNo(NONE),
        new: HandleNo(NONE),
        published: 0,
        swapped: 0,
        ..t
    };
    moves(filling, Write::Nothing)
}

// 23 scan down, of task number `n`
pub fn scan_down(s: &Read, n: usize, t: Task) -> Decision
    requires { n < s.now.lent.z.tasks }
    ensures { result ≡ scans_down s.now.lent.z (seen s.now.lent) t n }
{
    let z = s.lent.z;
    let depth = walks::stack_depth(z, s.lent.tasks, n);
    if 0 < depth {
        let e = rows::stack_at(z, s.lent.tasks, n, depth - 1);
        return take_off(&s.lent, t, e);
    }
    if z.chunks <= t.chunk.0 as usize {
        return fill_from(s, t, t.argument);
    }
    let x = rows::chunk_at(z, s.lent.chunks, t.chunk);
    if x.min <= t.key {
        return finishes(Write::Nothing, Report::Done);
    }
    fill_from(s, t, x.min - 1)
}
