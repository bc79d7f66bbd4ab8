// The directory's six tables: calls on them, and the tables as lines, leaving out what is 0 and none throughout.
ghost use Rattle.std.specs.Prelude.{◌+◌, ◌*◌, ◌<◌, ◌≡◌, length, slice_range};
ghost use Rattle.rules.specs.Words.{limits};

use crate::answers::Answers;
use rules::{Chunk, Directory, Report};

// How many words the lent tables have; the index stands after the directory's row, a task's stack after every task's row.
const DIRECTORY_LENGTH: usize = rows::DIRECTORY_WORDS + Directory::CHUNKS * rows::INDEX_WORDS;

const TASKS_LENGTH: usize = Directory::TASKS * rows::TASK_WORDS
    + Directory::TASKS * Directory::ENTRIES;

const CHUNKS_LENGTH: usize = Directory::CHUNKS * rows::CHUNK_WORDS;

const ENTRIES_LENGTH: usize = Directory::CHUNKS * Directory::ENTRIES * rows::ENTRY_WORDS;

// The tables of one directory.
#[derive(Drop)]
pub struct Tables {
    directory: [u64; DIRECTORY_LENGTH],
    tasks: [u64; TASKS_LENGTH],
    chunks: [u64; CHUNKS_LENGTH],
    entries: [u64; ENTRIES_LENGTH],
    values: [u64; Directory::HANDLES],
    marks: [u64; Directory::HANDLES],
}

impl Tables {
    // Tables of zeros.
    pub fn empty() -> Tables {
        Tables {
            directory: [0; DIRECTORY_LENGTH],
            tasks: [0; TASKS_LENGTH],
            chunks: [0; CHUNKS_LENGTH],
            entries: [0; ENTRIES_LENGTH],
            values: [0; Directory::HANDLES],
            marks: [0; Directory::HANDLES],
        }
    }

    // The fresh directory's tables.
    pub fn fresh(&mut self) -> Report {
        directory::fresh(
            &mut self.directory,
            &mut self.tasks,
            &mut self.chunks,
            &mut self.entries,
            &mut self.values,
            &mut self.marks,
        )
    }

    // Task n starts an operation with a key, an argument and a function.
    pub fn start(&mut self, n: u64, op: u64, k: u64, a: u64, f: u64) -> Report {
        directory::start(
            &self.directory,
            &mut self.tasks,
            &self.chunks,
            &self.entries,
            &self.values,
            &self.marks,
            n,
            op,
            k,
            a,
            f,
        )
    }

    // Task n makes a step.
    pub fn step(&mut self, n: u64) -> Report {
        directory::step(
            &self.directory,
            &mut self.tasks,
            &mut self.chunks,
            &mut self.entries,
            &mut self.values,
            &mut self.marks,
            n,
        )
    }

    // A rebalance of the chunk that has the key begins.
    pub fn begin(&mut self, k: u64) -> Report {
        directory::begin(
            &mut self.directory,
            &self.tasks,
            &mut self.chunks,
            &self.entries,
            &self.values,
            &self.marks,
            k,
        )
    }

    // The rebalance makes a step.
    pub fn rebalance(&mut self) -> Report {
        directory::rebalance(
            &mut self.directory,
            &self.tasks,
            &mut self.chunks,
            &mut self.entries,
            &self.values,
            &self.marks,
        )
    }

    // Every table.
    pub fn print(&self, to: &mut Answers<'_, impl Print>) {
        self.print_directory(to);
        self.print_chunks(to);
        self.print_handles(to);
        self.print_tasks(to);
    }

    // The directory's row, and the rows of the index that are in use.
    fn print_directory(&self, to: &mut Answers<'_, impl Print>) {
        let d = rows::directory_row(&self.directory);
        script::directory_lines(to.line(), d);
        for i in 0..Directory::CHUNKS.min(d.indexed as usize) {
            script::index_line(to.line(), i as u64, rows::index_row(&self.directory, i));
        }
    }

    // The chunks that are not unused, each with its used entries.
    fn print_chunks(&self, to: &mut Answers<'_, impl Print>) {
        for i in 0..Directory::CHUNKS {
            let c = rows::chunk_row(&self.chunks, i);
            if c.status != Chunk::UNUSED {
                script::chunk_line(to.line(), i as u64, c);
                self.print_entries(i, c.used, to);
            }
        }
    }

    // The used entries of chunk i.
    fn print_entries(&self, i: usize, used: u64, to: &mut Answers<'_, impl Print>)
        requires { i < limits.chunks }
    {
        for e in 0..Directory::ENTRIES.min(used as usize) {
            let x = rows::entry_row(&self.entries, i * Directory::ENTRIES + e);
            script::entry_line(to.line(), i as u64, e as u64, x);
        }
    }

    // The handles, but for those whose value is 0 and that are not deleted.
    fn print_handles(&self, to: &mut Answers<'_, impl Print>) {
        for (h, (value, mark)) in self.values.iter().zip(&self.marks).enumerate() {
            if *value != 0 || *mark != 0 {
                script::handle_line(to.line(), h as u64, *value, *mark);
            }
        }
    }

    // The tasks at work, each with its stack where there are entries on it.
    fn print_tasks(&self, to: &mut Answers<'_, impl Print>) {
        for i in 0..Directory::TASKS {
            let t = rows::task_row(&self.tasks, i);
            if t.stage != 0 {
                script::task_line(to.line(), i as u64, t);
                let stack = self.stack(i);
                if stack[0] != rules::NONE {
                    script::stack_line(to.line(), i as u64, stack);
                }
            }
        }
    }

    // The words of task i's stack.
    fn stack(&self, i: usize) -> &[u64]
        requires { i < limits.tasks }
        ensures count { length result.now ≡ limits.entries }
        ensures words { result.now ≡ slice_range self.now.tasks (limits.tasks * 11 + i * limits.entries) (limits.tasks * 11 + i * limits.entries + limits.entries) }
    {
        let at = rows::stack_number(Directory::sizes(), i, 0);
        &self.tasks[at..at + Directory::ENTRIES]
    }
}
