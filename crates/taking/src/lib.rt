// Which handle is free (document 02, E4): one pass over the used entries and the tasks strikes off what they name, then the lowest handle left is picked.
#![tactic(auto)]

ghost use Rattle.std.specs.Prelude.{ℕ, ◌≡◌, ◌*◌, ◌-◌, ◌≤◌, ◌<◌, eqb, length};
ghost use Rattle.rules.specs.Words.{handle_no};
ghost use Rattle.rules.specs.Walks.{named_in, held_in, free_from};
ghost use Rattle.rows.specs.Rows.{rows_from, entry_of, task_rows, entry_rows};
ghost use Rattle.taking.specs.Left.{room, bit_at, Struck, Joined, First, LowestLeft, Taken};
ghost use Rattle.taking.specs.Slotted.{Slotted};

use rules::{ChunkNo, HandleNo, Sizes};

// The most handles that there is room for.
pub const ROOM: usize = 4672;

// A bit for each handle: handle n has bit n / 128 of word n % 128, so that neighbours lie in different words, and no change of a word waits for the one before.
const WORDS: usize = 128;

// A word whose handles are all left: 37 bits, for the room. Words of one byte repeated would be laid out by a call of memset.
const ALL: u64 = (1 << (ROOM / WORDS + 1)) - 1;

// The first of the numbers whose bits no handle has: the words' top bits.
const TOP: usize = 63 * WORDS;

// Where the handle's bit stands. A number past the room, none among them, has the one given, `top`: so it needs no branch of its own.
fn bit_of(top: usize, h: HandleNo) -> usize
    requires { (room ≤ top) × (top < 8192) }
    ensures { (result < 8192) × (h.0 < room → result ≡ h.0) × (room ≤ h.0 → room ≤ result) }
{
    (h.0 as usize).min(top)
}

// The handles that are left.
#[derive(Drop)]
struct Left {
    words: [u64; WORDS],
}

impl Left {
    // All are left.
    fn all() -> Self
        ensures { (h : ℕ) → h < room → bit_at result.words h ≡ 1 }
    {
        Left {
            words: [ALL; WORDS],
        }
    }

    // The handle is struck off.
    fn strike(&mut self, top: usize, h: HandleNo)
        requires { (room ≤ top) × (top < 8192) }
        ensures { Struck self.old.words self.new.words (λ n. eqb h.0 n) }
    {
        let n = bit_of(top, h);
        let i = n % WORDS;
        self.words[i] &= !(1 << (n / WORDS));
    }

    // What the entries of a stretch of rows name is struck off, two rows in a turn: where both name none, neither waits for the other's word.
    fn strike_rows(&mut self, from: usize, to: usize, entries: &[u64])
        requires { (from ≤ to) × (to * 3 ≤ length entries.now) }
        ensures { Struck self.old.words self.new.words (λ h. named_in (rows_from (entry_of entries.now) from (to - from)) (handle_no h)) }
    {
        for pair in 0..(to - from) / 2 {
            let row = from + pair * 2;
            let x = rows::entry_row(entries, row);
            self.strike(TOP, x.handle);
            let y = rows::entry_row(entries, row + 1);
            self.strike(TOP + 1, y.handle);
        }
        if (to - from) % 2 == 1 {
            let x = rows::entry_row(entries, to - 1);
            self.strike(TOP, x.handle);
        }
    }

    // What the entries name is struck off, chunk by chunk: only used ones name any.
    fn strike_named(&mut self, z: Sizes, chunks: &[u64], entries: &[u64])
        requires { Slotted z chunks.now entries.now }
        ensures { Struck self.old.words self.new.words (λ h. named_in (entry_rows (z.chunks * z.entries) entries.now) (handle_no h)) }
    {
        for c in 0..z.chunks {
            let x = rows::chunk_row(chunks, c);
            let first = rows::first_number(z, ChunkNo(c as u64));
            self.strike_rows(first, first + x.used as usize, entries);
        }
    }

    // What the first `n` tasks hold is struck off.
    fn strike_held(&mut self, n: usize, tasks: &[u64])
        requires { n * 11 ≤ length tasks.now }
        ensures { Struck self.old.words self.new.words (λ h. held_in (task_rows n tasks.now) (handle_no h)) }
    {
        for task in 0..n {
            let t = rows::task_row(tasks, task);
            self.strike(TOP, t.old);
            self.strike(TOP + 1, t.new);
        }
    }

    // The bits that some word has.
    fn any(&self) -> u64
        ensures { Joined self.now.words 128 result }
    {
        let mut any: u64 = 0;
        for w in &self.words {
            any |= *w;
        }
        any
    }

    // The first word that has the bit.
    fn first_with(&self, bit: usize) -> Option<usize>
        requires { bit < 64 }
        ensures { First self.now.words bit result }
    {
        self.words.iter().position(|w| (*w >> bit) & 1 == 1)
    }

    // The lowest handle that is left.
    fn lowest(&self) -> Option<usize>
        ensures { LowestLeft self.now.words result }
    {
        let any = self.any();
        if any == 0 {
            return None;
        }
        let bit = any.trailing_zeros() as usize;
        let word = self.first_with(bit)?;
        Some(bit * WORDS + word)
    }
}

// The lowest free handle, or none.
pub fn lowest_free(z: Sizes, chunks: &[u64], entries: &[u64], tasks: &[u64]) -> Option<HandleNo>
    requires { Slotted z chunks.now entries.now × (z.tasks * 11 ≤ length tasks.now) }
    ensures { Taken z result (free_from (entry_rows (z.chunks * z.entries) entries.now) (task_rows z.tasks tasks.now) z.handles 0) }
{
    let mut left = Left::all();
    left.strike_named(z, chunks, entries);
    left.strike_held(z.tasks, tasks);
    match left.lowest() {
        Some(n) if n < z.handles => Some(HandleNo(n as u64)),
        _ => None,
    }
}
