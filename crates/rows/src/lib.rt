// The leaves: a row of a lent table is read and written as a struct.
// Code above reads and writes rows through them; a handle's value and its mark are words of their own.
#![tactic(auto)]

mod lent;
mod shaped;

ghost use Rattle.std.specs.Prelude.{◌≡◌, ℕ, ◌+◌, ◌*◌, ◌^◌, ◌<◌, ◌≤◌, [], length, set, get_or};
ghost use Rattle.rules.specs.Words.{no_entry};
ghost use Rattle.rules.specs.Tables.{idle_task, empty_chunk, empty_entry, empty_row, row, chunk_at, entry_at};
ghost use Rattle.rows.specs.Rows.{directory_of, index_of, task_of, chunk_of, entry_of, chunk_rows, entry_rows, stack_rows, Numbers, DirectoryPut, IndexPut, TaskPut, StackWord, StackPut};

pub use lent::Lent;
use rules::{Chunk, ChunkNo, Directory, Entry, EntryNo, HandleNo, IndexRow, NONE, Sizes, Task};
pub use shaped::Shaped;

// How many words a row has: the directory's own, one of the index, a task's, a chunk's, an entry's.
pub const DIRECTORY_WORDS: usize = 6;

pub const INDEX_WORDS: usize = 2;

pub const TASK_WORDS: usize = 11;

pub const CHUNK_WORDS: usize = 6;

pub const ENTRY_WORDS: usize = 3;

// The directory's own row.
pub fn directory_row(words: &[u64]) -> Directory
    requires { 6 ≤ length words.now }
    ensures { result ≡ directory_of words.now }
{
    Directory {
        first: ChunkNo(words[0]),
        stage: words[1],
        old: ChunkNo(words[2]),
        new: ChunkNo(words[3]),
        second: ChunkNo(words[4]),
        indexed: words[5],
    }
}

pub fn put_directory_row(words: &mut [u64], x: Directory)
    requires { 6 ≤ length words.old }
    ensures { DirectoryPut words.old words.new x }
{
    words[0] = x.first.0;
    words[1] = x.stage;
    words[2] = x.old.0;
    words[3] = x.new.0;
    words[4] = x.second.0;
    words[5] = x.indexed;
}

// Row `i` of the index: the index stands after the directory's own row.
pub fn index_row(words: &[u64], i: usize) -> IndexRow
    requires { 6 + i * 2 + 2 ≤ length words.now }
    ensures { result ≡ index_of words.now i }
{
    let at = DIRECTORY_WORDS + i * INDEX_WORDS;
    IndexRow {
        min: words[at],
        chunk: ChunkNo(words[at + 1]),
    }
}

pub fn put_index_row(words: &mut [u64], i: usize, x: IndexRow)
    requires { 6 + i * 2 + 2 ≤ length words.old }
    ensures { IndexPut words.old words.new i x }
{
    let at = DIRECTORY_WORDS + i * INDEX_WORDS;
    words[at] = x.min;
    words[at + 1] = x.chunk.0;
}

// Row `i` of the tasks' table.
pub fn task_row(words: &[u64], i: usize) -> Task
    requires { i * 11 + 11 ≤ length words.now }
    ensures { result ≡ task_of words.now i }
{
    let at = i * TASK_WORDS;
    Task {
        stage: words[at],
        operation: words[at + 1],
        function: words[at + 2],
        key: words[at + 3],
        argument: words[at + 4],
        chunk: ChunkNo(words[at + 5]),
        entry: EntryNo(words[at + 6]),
        old: HandleNo(words[at + 7]),
        new: HandleNo(words[at + 8]),
        published: words[at + 9],
        swapped: words[at + 10],
    }
}

pub fn put_task_row(words: &mut [u64], i: usize, x: Task)
    requires { i * 11 + 11 ≤ length words.old }
    ensures { TaskPut words.old words.new i x }
{
    let at = i * TASK_WORDS;
    words[at] = x.stage;
    words[at + 1] = x.operation;
    words[at + 2] = x.function;
    words[at + 3] = x.key;
    words[at + 4] = x.argument;
    words[at + 5] = x.chunk.0;
    words[at + 6] = x.entry.0;
    words[at + 7] = x.old.0;
    words[at + 8] = x.new.0;
    words[at + 9] = x.published;
    words[at + 10] = x.swapped;
}

// Row `i` of the chunks' table.
pub fn chunk_row(words: &[u64], i: usize) -> Chunk
    requires { i * 6 + 6 ≤ length words.now }
    ensures { result ≡ chunk_of words.now i }
{
    let at = i * CHUNK_WORDS;
    Chunk {
        status: words[at],
        frozen: words[at + 1],
        min: words[at + 2],
        next: ChunkNo(words[at + 3]),
        head: EntryNo(words[at + 4]),
        used: words[at + 5],
    }
}

pub fn put_chunk_row(words: &mut [u64], i: usize, x: Chunk)
    requires { i * 6 + 6 ≤ length words.old }
    ensures { (n : ℕ) → chunk_rows n words.new ≡ set (chunk_rows n words.old) i x }
{
    let at = i * CHUNK_WORDS;
    words[at] = x.status;
    words[at + 1] = x.frozen;
    words[at + 2] = x.min;
    words[at + 3] = x.next.0;
    words[at + 4] = x.head.0;
    words[at + 5] = x.used;
}

// Row `i` of the entries' table.
pub fn entry_row(words: &[u64], i: usize) -> Entry
    requires { i * 3 + 3 ≤ length words.now }
    ensures { result ≡ entry_of words.now i }
{
    let at = i * ENTRY_WORDS;
    Entry {
        key: words[at],
        handle: HandleNo(words[at + 1]),
        next: EntryNo(words[at + 2]),
    }
}

pub fn put_entry_row(words: &mut [u64], i: usize, x: Entry)
    requires { i * 3 + 3 ≤ length words.old }
    ensures { (n : ℕ) → entry_rows n words.new ≡ set (entry_rows n words.old) i x }
{
    let at = i * ENTRY_WORDS;
    words[at] = x.key;
    words[at + 1] = x.handle.0;
    words[at + 2] = x.next.0;
}

// ---- rows that hold only 0 and none

pub fn idle_task() -> Task
    ensures { result ≡ idle_task }
{
    Task {
        stage: 0,
        operation: 0,
        function: 0,
        key: 0,
        argument: 0,
        chunk: ChunkNo(NONE),
        entry: EntryNo(NONE),
        old: HandleNo(NONE),
        new: HandleNo(NONE),
        published: 0,
        swapped: 0,
    }
}

pub fn empty_chunk() -> Chunk
    ensures { result ≡ empty_chunk }
{
    Chunk {
        status: 0,
        frozen: 0,
        min: 0,
        next: ChunkNo(NONE),
        head: EntryNo(NONE),
        used: 0,
    }
}

pub fn empty_entry() -> Entry
    ensures { result ≡ empty_entry }
{
    Entry {
        key: 0,
        handle: HandleNo(NONE),
        next: EntryNo(NONE),
    }
}

pub fn empty_row() -> IndexRow
    ensures { result ≡ empty_row }
{
    IndexRow {
        min: 0,
        chunk: ChunkNo(NONE),
    }
}

// ---- by numbers

// A chunk's row; a number past the table reads as an empty one.
pub fn chunk_at(z: Sizes, chunks: &[u64], c: ChunkNo) -> Chunk
    requires { length chunks.now ≡ z.chunks * 6 }
    ensures { result ≡ chunk_at (chunk_rows z.chunks chunks.now) c }
{
    let i = c.0 as usize;
    if i < z.chunks {
        chunk_row(chunks, i)
    } else {
        empty_chunk()
    }
}

// A chunk's row is written; a number past the table writes nothing.
pub fn put_chunk(z: Sizes, chunks: &mut [u64], c: ChunkNo, x: Chunk)
    requires { length chunks.old ≡ z.chunks * 6 }
    ensures { chunk_rows z.chunks chunks.new ≡ set (chunk_rows z.chunks chunks.old) c.0 x }
{
    let i = c.0 as usize;
    if i < z.chunks {
        put_chunk_row(chunks, i, x);
    }
}

// The row number of a chunk's entry.
pub fn entry_number(z: Sizes, c: ChunkNo, e: EntryNo) -> usize
    requires { (c.0 < z.chunks) × (e.0 < z.entries) × (z.chunks * z.entries < 2 ^ 64) }
    ensures { (result ≡ row z c e) × (result < z.chunks * z.entries) }
{
    (c.0 as usize) * z.entries + e.0 as usize
}

// The row number of a chunk's first slot.
pub fn first_number(z: Sizes, c: ChunkNo) -> usize
    requires { (c.0 < z.chunks) × (z.chunks * z.entries < 2 ^ 64) }
    ensures { (result ≡ c.0 * z.entries) × (result + z.entries ≤ z.chunks * z.entries) }
{
    (c.0 as usize) * z.entries
}

// A chunk's entry.
pub fn entry_at(z: Sizes, entries: &[u64], c: ChunkNo, e: EntryNo) -> Entry
    requires { Numbers z entries.now c e }
    ensures { result ≡ entry_at z (entry_rows (z.chunks * z.entries) entries.now) c e }
{
    let i = entry_number(z, c, e);
    entry_row(entries, i)
}

pub fn put_entry(z: Sizes, entries: &mut [u64], c: ChunkNo, e: EntryNo, x: Entry)
    requires { Numbers z entries.old c e }
    ensures { entry_rows (z.chunks * z.entries) entries.new ≡ set (entry_rows (z.chunks * z.entries) entries.old) (row z c e) x }
{
    let i = entry_number(z, c, e);
    put_entry_row(entries, i, x);
}

// The number of a stack's word: the stacks stand after every task's row.
pub fn stack_number(z: Sizes, n: usize, i: usize) -> usize
    requires { (n < z.tasks) × (i < z.entries) × (z.tasks * 11 + z.tasks * z.entries < 2 ^ 64) }
    ensures { (result ≡ z.tasks * 11 + (n * z.entries + i)) × (result < z.tasks * 11 + z.tasks * z.entries) }
{
    z.tasks * TASK_WORDS + (n * z.entries + i)
}

// Word `i` of task `n`'s stack.
pub fn stack_at(z: Sizes, tasks: &[u64], n: usize, i: usize) -> EntryNo
    requires { StackWord z tasks.now n i }
    ensures { result ≡ get_or (get_or (stack_rows z tasks.now) n []) i no_entry }
{
    let at = stack_number(z, n, i);
    EntryNo(tasks[at])
}

pub fn put_stack_at(z: Sizes, tasks: &mut [u64], n: usize, i: usize, e: EntryNo)
    requires { StackWord z tasks.old n i }
    ensures { StackPut z tasks.old tasks.new n i e }
{
    let at = stack_number(z, n, i);
    tasks[at] = e.0;
}

// A handle's value, or its mark; a number past the table reads as 0.
pub fn word_at(words: &[u64], h: HandleNo) -> u64
    ensures { result ≡ get_or words.now h.0 0 }
{
    words.get(h.0 as usize).copied().unwrap_or(0)
}

pub fn put_word(words: &mut [u64], h: HandleNo, v: u64)
    ensures { words.new ≡ set words.old h.0 v }
{
    // by its index: the contract of the slice's `get_mut` doesn't say what the slice ends as
    let i = h.0 as usize;
    if i < words.len() {
        words[i] = v;
    }
}
