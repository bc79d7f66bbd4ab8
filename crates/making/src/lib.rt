// The fresh directory, made over whatever the tables held.
#![tactic(auto)]

ghost use Rattle.std.specs.Prelude.{◌≡◌, refl, ℕ, List, ◌++◌, ◌+◌, ◌*◌, ◌-◌, ◌≤◌, length, take, replicate, set, ⊤};
ghost use Rattle.rules.specs.declared.Sizes.{Sizes};
ghost use Rattle.rules.specs.Tables.{idle_task, empty_chunk, empty_entry, empty_stack};
ghost use Rattle.rules.specs.Calls.{fresh_directory, fresh};
ghost use Rattle.making.specs.Clearing.{every_other};
ghost use Rattle.rows.specs.Rows.{directory_of, task_of, chunk_of, entry_of, index_rows, task_rows, chunk_rows, entry_rows, stack_rows, as_left, Lends};
ghost use Rattle.rows.proofs.Laws.{length-rows};
ghost use Rattle.std.proofs.Math.Nat.{le_trans, le-add_right};
ghost use mathlib.Core.Path.{◌∙◌};

use rules::{Chunk, ChunkNo, Directory, Entry, IndexRow, NONE, Sizes, Task};

// A row of a table, of which a fresh directory has one kind.
trait Row {
    ghost width: { ℕ };

    ghost rows: { ℕ → List ℕ → List Self };

    ghost fresh: { Self };

    // What stands past the first rows, so many, is the same in both.
    ghost past: { ℕ → List ℕ → List ℕ → Type 0 };

    // Row `i` of the table is the fresh one.
    fn put_fresh(words: &mut [u64], i: usize)
        requires { i * width + width ≤ length words.old }
        ensures { ((n : ℕ) → rows n words.new ≡ set (rows n words.old) i fresh) × past (i + 1) words.old words.new };

    ghost counted: { (n : ℕ) (ws : List ℕ) → length (rows n ws) ≡ n };

    ghost past_same: { (n : ℕ) (ws : List ℕ) → past n ws ws };

    ghost past_next: { (n : ℕ) (us bs cs : List ℕ) → past n us bs → past (n + 1) bs cs → past (n + 1) us cs };
}

impl Row for Task {
    ghost width = { 11 };

    ghost rows = { task_rows };

    ghost fresh = { idle_task };

    ghost past = { λ n us bs. (z : Sizes) → n ≤ z.tasks → stack_rows z bs ≡ stack_rows z us };

    fn put_fresh(words: &mut [u64], i: usize) {
        rows::put_task_row(words, i, rows::idle_task());
    }

    ghost counted = { λ n ws. length-rows (task_of ws) 0 n };

    ghost past_same = { λ n ws z h. refl };

    ghost past_next = { λ n us bs cs p q z h. q z h ∙ p z (le_trans (le-add_right n 1) h) };
}

impl Row for Chunk {
    ghost width = { 6 };

    ghost rows = { chunk_rows };

    ghost fresh = { empty_chunk };

    ghost past = { λ n us bs. ⊤ };

    fn put_fresh(words: &mut [u64], i: usize) {
        rows::put_chunk_row(words, i, rows::empty_chunk());
    }

    ghost counted = { λ n ws. length-rows (chunk_of ws) 0 n };

    ghost past_same = { λ n ws. tt };

    ghost past_next = { λ n us bs cs p q. tt };
}

impl Row for Entry {
    ghost width = { 3 };

    ghost rows = { entry_rows };

    ghost fresh = { empty_entry };

    ghost past = { λ n us bs. ⊤ };

    fn put_fresh(words: &mut [u64], i: usize) {
        rows::put_entry_row(words, i, rows::empty_entry());
    }

    ghost counted = { λ n ws. length-rows (entry_of ws) 0 n };

    ghost past_same = { λ n ws. tt };

    ghost past_next = { λ n us bs cs p q. tt };
}

// The first `n` rows are fresh, and what stands past them stays.
fn put_rows<R: Row>(n: usize, words: &mut [u64])
    requires { n * R.width ≤ length words.old }
    ensures { (R.rows n words.new ≡ replicate n R.fresh) × R.past n words.old words.new }
{
    for i in 0..n {
        R::put_fresh(words, i);
    }
}

// The first `n` tasks are idle; what stands past every task's row stays.
pub fn idle_tasks(n: usize, tasks: &mut [u64])
    requires { n * 11 ≤ length tasks.old }
    ensures { (task_rows n tasks.new ≡ replicate n idle_task) × ((z : Sizes) → n ≤ z.tasks → stack_rows z tasks.new ≡ stack_rows z tasks.old) }
{
    put_rows::<Task>(n, tasks);
}

// The first `n` chunks are empty.
pub fn empty_chunks(n: usize, chunks: &mut [u64])
    requires { n * 6 ≤ length chunks.old }
    ensures { chunk_rows n chunks.new ≡ replicate n empty_chunk }
{
    put_rows::<Chunk>(n, chunks);
}

// The first `n` entries are empty.
pub fn empty_entries(n: usize, entries: &mut [u64])
    requires { n * 3 ≤ length entries.old }
    ensures { entry_rows n entries.new ≡ replicate n empty_entry }
{
    put_rows::<Entry>(n, entries);
}

// Every other word is `v`, from place `from` on.
fn every_other(v: u64, from: usize, words: &mut [u64])
    ensures { words.new ≡ every_other v from words.old }
{
    for i in (from..words.len()).step_by(2) {
        words[i] = v;
    }
}

// Every word from place `from` on is `v`, and none is read; they are written in two passes, each of every other word, since a compiler makes one pass over all of them a call of `memset`.
pub fn fill(v: u64, from: usize, words: &mut [u64])
    requires { from ≤ length words.old }
    ensures { words.new ≡ take from words.old ++ replicate (length words.old - from) v }
{
    let next = from + 1;
    every_other(v, from, words);
    every_other(v, next, words);
}

// Every task is idle, and its stack is empty.
pub fn clear_tasks(z: Sizes, tasks: &mut [u64])
    requires { length tasks.old ≡ z.tasks * 11 + z.tasks * z.entries }
    ensures { (task_rows z.tasks tasks.new ≡ replicate z.tasks idle_task) × (stack_rows z tasks.new ≡ replicate z.tasks (empty_stack z)) }
{
    idle_tasks(z.tasks, tasks);
    let first = z.tasks * rows::TASK_WORDS;
    fill(NONE, first, tasks);
}

// No rebalance is under way, and the index has one row, for chunk 0; no word is read.
pub fn clear_directory(z: Sizes, directory: &mut [u64])
    requires { length directory.old ≡ 6 + z.chunks * 2 }
    ensures { (directory_of directory.new ≡ fresh_directory) × (index_rows z.chunks directory.new ≡ (fresh z).index) }
{
    rows::put_directory_row(directory, Directory::fresh());
    indexing::empty_from(z, directory, 0);
    if 0 < z.chunks {
        let row = IndexRow {
            min: 0,
            chunk: ChunkNo(0),
        };
        rows::put_index_row(directory, 0, row);
    }
}

// Chunk 0 is live; all else is unused and idle.
pub fn make(
    z: Sizes,
    directory: &mut [u64],
    tasks: &mut [u64],
    chunks: &mut [u64],
    entries: &mut [u64],
    values: &mut [u64],
    marks: &mut [u64],
)
    requires { Lends z directory.old tasks.old chunks.old entries.old values.old marks.old }
    ensures { as_left z directory.new tasks.new chunks.new entries.new values.new marks.new ≡ fresh z }
{
    clear_directory(z, directory);
    clear_tasks(z, tasks);
    empty_chunks(z.chunks, chunks);
    let first = Chunk {
        status: Chunk::LIVE,
        ..rows::empty_chunk()
    };
    rows::put_chunk(z, chunks, ChunkNo(0), first);
    empty_entries(z.chunks * z.entries, entries);
    fill(0, 0, values);
    fill(0, 0, marks);
}
