// The stage list as a table: what each of the 24 stages must hold and may hold (document 01, "Stages of a task").
ghost use Rattle.shape.specs.Parts.{Listed};

// How a stage holds something: never, always or perhaps; always and deleted, of an old handle.
#[derive(Clone, Copy, PartialEq, Eq)]
pub enum How {
    Never,
    Always,
    Perhaps,
    Deleted,
}

// What a stage holds of each.
#[derive(Clone, Copy)]
pub struct Holds {
    pub chunk: How,
    pub entry: How,
    pub old: How,
    pub new: How,
    pub published: How,
    pub swapped: How,
}

// A row of the list.
macro_rules! holds {
    ($chunk:ident, $entry:ident, $old:ident, $new:ident, $published:ident, $swapped:ident) => {
        Holds {
            chunk: How::$chunk,
            entry: How::$entry,
            old: How::$old,
            new: How::$new,
            published: How::$published,
            swapped: How::$swapped,
        }
    };
}

// The stage list; document 01 names this form, a constant table of 24 rows.
const STAGES: [Holds; 24] = [
    // 0 idle
    holds!(Never, Never, Never, Never, Never, Never),
    // 1 locate
    holds!(Never, Never, Never, Never, Never, Never),
    // 2 find
    holds!(Always, Never, Never, Never, Never, Never),
    // 3 read
    holds!(Always, Always, Never, Never, Never, Never),
    // 4 check
    holds!(Always, Always, Always, Never, Never, Never),
    // 5 apply
    holds!(Always, Always, Always, Never, Never, Never),
    // 6 take entry
    holds!(Always, Never, Never, Never, Never, Never),
    // 7 link
    holds!(Always, Always, Never, Never, Never, Never),
    // 8 take handle
    holds!(Always, Always, Perhaps, Never, Never, Never),
    // 9 write
    holds!(Always, Always, Perhaps, Always, Never, Never),
    // 10 publish
    holds!(Always, Always, Perhaps, Always, Never, Never),
    // 11 swap
    holds!(Always, Always, Perhaps, Always, Always, Never),
    // 12 unpublish
    holds!(Always, Always, Perhaps, Always, Always, Perhaps),
    // 13 publish
    holds!(Always, Always, Always, Never, Never, Never),
    // 14 swap to none
    holds!(Always, Always, Always, Never, Always, Never),
    // 15 unpublish
    holds!(Always, Always, Always, Never, Always, Perhaps),
    // 16 locate again
    holds!(Never, Never, Deleted, Never, Never, Never),
    // 17 find again
    holds!(Always, Never, Deleted, Never, Never, Never),
    // 18 read again
    holds!(Always, Always, Deleted, Never, Never, Never),
    // 19 publish
    holds!(Always, Always, Deleted, Never, Never, Never),
    // 20 swap to none
    holds!(Always, Always, Deleted, Never, Always, Never),
    // 21 unpublish
    holds!(Always, Always, Deleted, Never, Always, Never),
    // 22 scan
    holds!(Never, Never, Never, Never, Never, Never),
    // 23 scan down
    holds!(Perhaps, Never, Never, Never, Never, Never),
];

// A stage's row of the list; one past it holds nothing.
pub(crate) fn stage_holds(stage: u64) -> Holds
    ensures { Listed stage result }
{
    let i = stage as usize;
    if i < 24 {
        STAGES[i]
    } else {
        holds!(Never, Never, Never, Never, Never, Never)
    }
}
