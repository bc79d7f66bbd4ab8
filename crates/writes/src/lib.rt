// A step's write, done to the lent tables (document 01, "Stages of a task"): what a stage changes outside its task's own row.
#![tactic(auto)]

ghost use Rattle.std.specs.Prelude.{◌≡◌, List, ℕ};
ghost use Rattle.rules.specs.declared.Sizes.{Sizes};
ghost use Rattle.rules.specs.declared.Write.TheVariants as write;
ghost use Rattle.rules.specs.Stages.{apply};
ghost use Rattle.rows.specs.Rows.{Numbers, tables};
ghost use Rattle.writes.specs.Placed.{Ready};

use rules::{Chunk, ChunkNo, Entry, EntryNo, HandleNo, Sizes, Write};

// The chunk's next slot is used, for the key.
fn slot(z: Sizes, chunks: &mut [u64], entries: &mut [u64], c: ChunkNo, k: u64)
    requires { Ready z chunks.old entries.old (write.Slot c k) }
    ensures { (d ts vs ms : List ℕ) → tables z d ts chunks.new entries.new vs ms ≡ apply z (tables z d ts chunks.old entries.old vs ms) (write.Slot c k) }
{
    let x = rows::chunk_at(z, chunks, c);
    let taken = Chunk {
        used: x.used + 1,
        ..x
    };
    rows::put_chunk(z, chunks, c, taken);
    let empty = Entry {
        key: k,
        ..rows::empty_entry()
    };
    rows::put_entry(z, entries, c, EntryNo(x.used), empty);
}

// The entry is linked into the chunk's list, after the given one or, after none, at its head.
// `below` is a number, as the definition `apply` (crates/rules/specs) has it in the write.
fn link(z: Sizes, chunks: &mut [u64], entries: &mut [u64], c: ChunkNo, e: EntryNo, below: EntryNo)
    requires { Ready z chunks.old entries.old (write.Link c e below) }
    ensures { (d ts vs ms : List ℕ) → tables z d ts chunks.new entries.new vs ms ≡ apply z (tables z d ts chunks.old entries.old vs ms) (write.Link c e below) }
{
    let x = rows::entry_at(z, entries, c, e);
    if (below.0 as usize) < z.entries {
        let y = rows::entry_at(z, entries, c, below);
        rows::put_entry(z, entries, c, e, Entry { next: y.next, ..x });
        rows::put_entry(z, entries, c, below, Entry { next: e, ..y });
    } else {
        let row = rows::chunk_at(z, chunks, c);
        let first = Entry {
            next: row.head,
            ..x
        };
        rows::put_entry(z, entries, c, e, first);
        rows::put_chunk(z, chunks, c, Chunk { head: e, ..row });
    }
}

// The entry names the handle, or none.
fn name(z: Sizes, entries: &mut [u64], c: ChunkNo, e: EntryNo, h: HandleNo)
    requires { Numbers z entries.old c e }
    ensures { (d ts cs vs ms : List ℕ) → tables z d ts cs entries.new vs ms ≡ apply z (tables z d ts cs entries.old vs ms) (write.Name c e h) }
{
    let x = rows::entry_at(z, entries, c, e);
    rows::put_entry(z, entries, c, e, Entry { handle: h, ..x });
}

// The handle's record is value 0, undeleted.
fn fresh(values: &mut [u64], marks: &mut [u64], h: HandleNo)
    ensures { (z : Sizes) (d ts cs es : List ℕ) → tables z d ts cs es values.new marks.new ≡ apply z (tables z d ts cs es values.old marks.old) (write.Fresh h) }
{
    rows::put_word(values, h, 0);
    rows::put_word(marks, h, 0);
}

// The write is done.
pub fn apply(
    z: Sizes,
    chunks: &mut [u64],
    entries: &mut [u64],
    values: &mut [u64],
    marks: &mut [u64],
    w: Write,
)
    requires { Ready z chunks.old entries.old w }
    ensures { (d ts : List ℕ) → tables z d ts chunks.new entries.new values.new marks.new ≡ apply z (tables z d ts chunks.old entries.old values.old marks.old) w }
{
    match w {
        Write::Nothing => {}
        Write::Slot(c, k) => slot(z, chunks, entries, c, k),
        Write::Link(c, e, below) => link(z, chunks, entries, c, e, below),
        Write::Fresh(h) => fresh(values, marks, h),
        Write::Store(h, v) => rows::put_word(values, h, v),
        Write::Delete(h) => rows::put_word(marks, h, 1),
        Write::Name(c, e, h) => name(z, entries, c, e, h),
    }
}
