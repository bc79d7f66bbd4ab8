// Stages 1 to 3 and 16 to 18 (document 01, "Stages of a task"): locate, find and read, and the same again for a remove that has set its mark.
#![tactic(auto)]

ghost use Rattle.std.specs.Prelude.{◌≡◌, ℕ, ◌<◌, List};
ghost use Rattle.rules.specs.declared.Write.TheVariants as write;
ghost use Rattle.rules.specs.Words.{pick, inserts};
ghost use Rattle.rules.specs.Stages.{keeps, moves, finishes_absent, locates, finds, reads, finds_again, reads_again};
ghost use Rattle.rows.specs.Rows.{tables};
ghost use Rattle.outcome.specs.Lengths.{Holds};

use outcome::{Read, finishes_absent, gives_back, inserts, moves, with_entry};
use rows::Lent;
use rules::{Chunk, ChunkNo, Decision, Entry, EntryNo, HandleNo, NONE, Task, Write};

// 1 and 16 locate
pub fn locate(s: &Read, t: Task) -> Decision
    requires { t.stage < 22 }
    ensures { (ts es vs ms : List ℕ) → result ≡ locates s.now.lent.z (tables s.now.lent.z s.now.lent.directory.now ts s.now.lent.chunks.now es vs ms) t }
{
    let next = Task {
        stage: t.stage + 1,
        chunk: s.locate(t.key),
        entry: EntryNo(NONE),
        new: HandleNo(NONE),
        published: 0,
        swapped: 0,
        ..t
    };
    moves(next, Write::Nothing)
}

// 2 find
pub fn find(s: &Lent, t: Task) -> Decision
    requires { t.chunk.0 < s.now.z.chunks }
    ensures { (d ts vs ms : List ℕ) → result ≡ finds s.now.z (tables s.now.z d ts s.now.chunks.now s.now.entries.now vs ms) t }
{
    let head = rows::chunk_at(s.z, s.chunks, t.chunk).head;
    match walks::find(s.z, s.entries, t.chunk, head, t.key) {
        Some(entry) => moves(with_entry(t, 3, entry), Write::Nothing),
        None => goes_without(t, 6),
    }
}

// 3 read
pub fn read(s: &Lent, t: Task) -> Decision
    requires { Holds s.now.z t }
    ensures { (d ts cs vs ms : List ℕ) → result ≡ reads s.now.z (tables s.now.z d ts cs s.now.entries.now vs ms) t }
{
    let old = rows::entry_at(s.z, s.entries, t.chunk, t.entry).handle;
    if (old.0 as usize) < s.z.handles {
        let next = Task {
            stage: 4,
            old,
            new: HandleNo(NONE),
            published: 0,
            swapped: 0,
            ..t
        };
        return moves(next, Write::Nothing);
    }
    goes_without(t, 8)
}

// What is sought is not there: an insertion goes on at the stage, and another operation finishes.
fn goes_without(t: Task, stage: u64) -> Decision
    ensures { result ≡ pick (inserts t.operation) (moves (keeps t stage) write.Nothing) (finishes_absent t) }
{
    if inserts(t.operation) {
        moves(Task { stage, ..t }, Write::Nothing)
    } else {
        finishes_absent(t)
    }
}

// 17 find again
pub fn find_again(s: &Lent, t: Task) -> Decision
    requires { t.chunk.0 < s.now.z.chunks }
    ensures { (d ts ms : List ℕ) → result ≡ finds_again s.now.z (tables s.now.z d ts s.now.chunks.now s.now.entries.now s.now.values.now ms) t }
{
    let head = rows::chunk_at(s.z, s.chunks, t.chunk).head;
    match walks::find(s.z, s.entries, t.chunk, head, t.key) {
        Some(entry) => {
            let found = Task {
                stage: 18,
                entry,
                new: HandleNo(NONE),
                published: 0,
                swapped: 0,
                ..t
            };
            moves(found, Write::Nothing)
        }
        None => gives_back(s.values, t, Write::Nothing),
    }
}

// 18 read again
pub fn read_again(s: &Lent, t: Task) -> Decision
    requires { Holds s.now.z t }
    ensures { (d ts cs ms : List ℕ) → result ≡ reads_again s.now.z (tables s.now.z d ts cs s.now.entries.now s.now.values.now ms) t }
{
    if rows::entry_at(s.z, s.entries, t.chunk, t.entry).handle == t.old {
        moves(Task { stage: 19, ..t }, Write::Nothing)
    } else {
        gives_back(s.values, t, Write::Nothing)
    }
}
