// The six tables as a call is lent them, to be read.
ghost use Rattle.rows.specs.Rows.{Lends};

use rules::Sizes;

// Each table has the words that the sizes ask.
#[derive(Clone, Copy)]
pub struct Lent<'a> {
    pub z: Sizes,
    pub directory: &'a [u64],
    pub tasks: &'a [u64],
    pub chunks: &'a [u64],
    pub entries: &'a [u64],
    pub values: &'a [u64],
    pub marks: &'a [u64],
    ghost lends: { Lends z directory.now tasks.now chunks.now entries.now values.now marks.now },
}
