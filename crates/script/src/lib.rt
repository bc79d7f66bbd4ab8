// A script's text: what a line asks, and the lines that answer it.
#![tactic(auto)]

mod line;
mod numbers;
mod out;
mod print;
mod tables;
mod word;

pub use line::{Asked, Line, meant};
pub use out::Out;
pub use print::{report, text_line};
pub use tables::{
    chunk_line, directory_lines, entry_line, handle_line, index_line, stack_begins, stack_ends,
    stack_entry, stack_line, task_line,
};
