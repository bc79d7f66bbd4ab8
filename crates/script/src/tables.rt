// A line for each row of the tables.
ghost use lib.Chars.{codes};
ghost use Rattle.std.specs.Prelude.{◌≡◌, [], ◌++◌};
ghost use Rattle.std.specs.Fmt.{decimal};
ghost use Rattle.script.specs.Puts.{Puts, PutsLine};
ghost use Rattle.script.specs.Texts.{new_chunk_text, stage_text, rebalance_text, directory_text, flag_text, status_text, index_text, chunk_text, entry_text, handle_text, perhaps_text, task_text, stack_text};
ghost use Rattle.rules.specs.Kinds.{rebalance_stage_of};

use crate::out::Out;
use rules::{Chunk, Directory, Entry, IndexRow, RebalanceStage, Task};

// A new chunk of a rebalance, as far as there is one.
fn new_chunk(out: &mut Out, c: u64)
    ensures { Puts out.old.bytes.now out.new.bytes.now out.old.at (new_chunk_text c) out.new.at }
{
    match c {
        rules::NONE => out.put(b""),
        c => out.field(b" new ", c),
    }
}

// The stage that comes next.
fn stage_name(stage: RebalanceStage) -> &'static str
    ensures { result.now ≡ stage_text stage }
{
    match stage {
        RebalanceStage::Drain => "drain",
        RebalanceStage::Copy => "copy",
        RebalanceStage::SwapIn => "swap-in",
        RebalanceStage::Index => "index",
        RebalanceStage::Release => "release",
    }
}

// The rebalance: idle, or its stage, its old chunk and its new ones.
fn rebalance_line(out: &mut Out, d: Directory)
    ensures { PutsLine out.old.bytes.now out.new.bytes.now out.old.at (rebalance_text (rebalance_stage_of d.stage) d) out.new.at }
{
    match RebalanceStage::try_from(d.stage) {
        Err(_) => out.line(b"rebalance idle"),
        Ok(stage) => {
            out.put(b"rebalance ");
            out.put(stage_name(stage).as_bytes());
            out.field(b" old ", d.old.0);
            new_chunk(out, d.new.0);
            new_chunk(out, d.second.0);
            out.put(b"\n");
        }
    }
}

// The directory's own row, two lines: its first live chunk, and the rebalance.
pub fn directory_lines(out: &mut Out, d: Directory)
    ensures { PutsLine out.old.bytes.now out.new.bytes.now out.old.at (directory_text d) out.new.at }
{
    out.last(b"directory first ", d.first.0);
    rebalance_line(out, d);
}

// Row i of the index.
pub fn index_line(out: &mut Out, i: u64, x: IndexRow)
    ensures { PutsLine out.old.bytes.now out.new.bytes.now out.old.at (index_text i x) out.new.at }
{
    out.field(b"index ", i);
    out.field(b" min ", x.min);
    out.last(b" chunk ", x.chunk.0);
}

// A chunk's status.
fn status_name(c: Chunk) -> &'static str
    ensures { result.now ≡ status_text c.status }
{
    match c.status {
        Chunk::LIVE => "live",
        Chunk::NEW => "new",
        _ => "retired",
    }
}

// What chunk i is.
fn chunk_begins(out: &mut Out, i: u64, c: Chunk)
    ensures { Puts out.old.bytes.now out.new.bytes.now out.old.at (codes "chunk " ++ decimal i ++ codes " " ++ status_text c.status ++ flag_text c.frozen (codes " frozen")) out.new.at }
{
    out.field(b"chunk ", i);
    out.put(b" ");
    out.put(status_name(c).as_bytes());
    out.flag(c.frozen, b" frozen");
}

// Chunk i.
pub fn chunk_line(out: &mut Out, i: u64, c: Chunk)
    ensures { PutsLine out.old.bytes.now out.new.bytes.now out.old.at (chunk_text i c) out.new.at }
{
    chunk_begins(out, i, c);
    out.field(b" min ", c.min);
    out.perhaps(b" next ", c.next.0);
    out.perhaps(b" head ", c.head.0);
    out.last(b" used ", c.used);
}

// Chunk i's entry e.
pub fn entry_line(out: &mut Out, i: u64, e: u64, x: Entry)
    ensures { PutsLine out.old.bytes.now out.new.bytes.now out.old.at (entry_text i e x) out.new.at }
{
    out.field(b"entry ", i);
    out.field(b" ", e);
    out.field(b" key ", x.key);
    out.perhaps(b" handle ", x.handle.0);
    out.perhaps(b" next ", x.next.0);
    out.put(b"\n");
}

// Handle h's value and mark.
pub fn handle_line(out: &mut Out, h: u64, value: u64, mark: u64)
    ensures { PutsLine out.old.bytes.now out.new.bytes.now out.old.at (handle_text h value mark) out.new.at }
{
    out.field(b"handle ", h);
    out.field(b" value ", value);
    out.flag(mark, b" deleted");
    out.put(b"\n");
}

// What task i does.
fn task_work(out: &mut Out, i: u64, t: Task)
    ensures { Puts out.old.bytes.now out.new.bytes.now out.old.at (codes "task " ++ decimal i ++ codes " stage " ++ decimal t.stage ++ codes " operation " ++ decimal t.operation ++ codes " function " ++ decimal t.function ++ codes " key " ++ decimal t.key ++ codes " argument " ++ decimal t.argument) out.new.at }
{
    out.field(b"task ", i);
    out.field(b" stage ", t.stage);
    out.field(b" operation ", t.operation);
    out.field(b" function ", t.function);
    out.field(b" key ", t.key);
    out.field(b" argument ", t.argument);
}

// What a task holds.
fn task_holds(out: &mut Out, t: Task)
    ensures { PutsLine out.old.bytes.now out.new.bytes.now out.old.at (codes " chunk " ++ perhaps_text t.chunk.0 ++ codes " entry " ++ perhaps_text t.entry.0 ++ codes " old " ++ perhaps_text t.old.0 ++ codes " new " ++ perhaps_text t.new.0 ++ codes " published " ++ decimal t.published ++ codes " swapped " ++ decimal t.swapped) out.new.at }
{
    out.perhaps(b" chunk ", t.chunk.0);
    out.perhaps(b" entry ", t.entry.0);
    out.perhaps(b" old ", t.old.0);
    out.perhaps(b" new ", t.new.0);
    out.field(b" published ", t.published);
    out.last(b" swapped ", t.swapped);
}

// Task i: what it does, and what it holds.
pub fn task_line(out: &mut Out, i: u64, t: Task)
    ensures { PutsLine out.old.bytes.now out.new.bytes.now out.old.at (task_text i t) out.new.at }
{
    task_work(out, i, t);
    task_holds(out, t);
}

// A stack's line: whose it is.
pub fn stack_begins(out: &mut Out, i: u64)
    ensures { Puts out.old.bytes.now out.new.bytes.now out.old.at (codes "stack " ++ decimal i) out.new.at }
{
    out.field(b"stack ", i);
}

// An entry on it.
pub fn stack_entry(out: &mut Out, entry: u64)
    ensures { Puts out.old.bytes.now out.new.bytes.now out.old.at (codes " " ++ decimal entry) out.new.at }
{
    out.field(b" ", entry);
}

// The line's end.
pub fn stack_ends(out: &mut Out)
    ensures { PutsLine out.old.bytes.now out.new.bytes.now out.old.at [] out.new.at }
{
    out.line(b"");
}

// The entries on task i's stack, the top last; the first word that is none ends them.
pub fn stack_line(out: &mut Out, i: u64, words: &[u64])
    ensures { PutsLine out.old.bytes.now out.new.bytes.now out.old.at (stack_text i words.now) out.new.at }
{
    stack_begins(out, i);
    for e in words {
        if *e == rules::NONE {
            break;
        }
        stack_entry(out, *e);
    }
    stack_ends(out);
}
