// The things that the tables hold, by value, and what a call answers (document 01, "What the tables hold").
// What is done with them is said in specs/, once, for every crate above.
#![tactic(auto)]

ghost use Rattle.std.specs.Prelude.{◌≡◌};
ghost use Rattle.rules.specs.declared.Report.TheVariants as report;
ghost use Rattle.rules.specs.Words.{limits};
ghost use Rattle.rules.specs.Kinds.{number_of, told_by, operation_of, function_of, rebalance_stage_of};
ghost use Rattle.rules.specs.Calls.{fresh_directory};

// Stands for no chunk, no entry or no handle.
pub const NONE: u64 = 18446744073709551615;

// The largest key.
pub const LARGEST: u64 = 18446744073709551615;

// Numbers of chunks, of entries within a chunk, and of handles.
#[derive(Clone, Copy, PartialEq, Eq)]
pub struct ChunkNo(pub u64);

#[derive(Clone, Copy, PartialEq, Eq)]
pub struct EntryNo(pub u64);

#[derive(Clone, Copy, PartialEq, Eq)]
pub struct HandleNo(pub u64);

// How many there are of each. A table has as many rows as these say.
#[derive(Clone, Copy)]
pub struct Sizes {
    pub tasks: usize,
    pub chunks: usize,
    pub entries: usize,
    pub handles: usize,
}

// A row of the entries' table: chunk c's entry e is row c * entries + e.
#[derive(Clone, Copy, PartialEq, Eq)]
pub struct Entry {
    pub key: u64,
    pub handle: HandleNo,
    pub next: EntryNo,
}

// A row of the chunks' table.
#[derive(Clone, Copy, PartialEq, Eq)]
pub struct Chunk {
    pub status: u64,
    pub frozen: u64,
    pub min: u64,
    pub next: ChunkNo,
    pub head: EntryNo,
    pub used: u64,
}

// A row of the tasks' table. A scan keeps its cursor as the key and its upper end as the argument.
#[derive(Clone, Copy, PartialEq, Eq)]
pub struct Task {
    pub stage: u64,
    pub operation: u64,
    pub function: u64,
    pub key: u64,
    pub argument: u64,
    pub chunk: ChunkNo,
    pub entry: EntryNo,
    pub old: HandleNo,
    pub new: HandleNo,
    pub published: u64,
    pub swapped: u64,
}

// The directory's own row: its first live chunk, the rebalance under way, and how many rows of the index are in use.
#[derive(Clone, Copy, PartialEq, Eq)]
pub struct Directory {
    pub first: ChunkNo,
    pub stage: u64,
    pub old: ChunkNo,
    pub new: ChunkNo,
    pub second: ChunkNo,
    pub indexed: u64,
}

// A row of the index (document 02, E3): a chunk and its minimum key.
#[derive(Clone, Copy, PartialEq, Eq)]
pub struct IndexRow {
    pub min: u64,
    pub chunk: ChunkNo,
}

// What a stage changes outside its task's own row.
#[derive(Clone, Copy)]
pub enum Write {
    Nothing,
    // a slot of the chunk, for the key
    Slot(ChunkNo, u64),
    // the entry linked into the chunk's list, after another or, after none, at its head
    Link(ChunkNo, EntryNo, EntryNo),
    // the handle's record is value 0, undeleted
    Fresh(HandleNo),
    Store(HandleNo, u64),
    Delete(HandleNo),
    // the entry names the handle, or none
    Name(ChunkNo, EntryNo, HandleNo),
}

// Why a call is refused, in the order of the numbers.
#[derive(Clone, Copy, PartialEq, Eq)]
pub enum Refusal {
    NoTask,
    TaskAtWork,
    TaskIdle,
    ScanBackwards,
    NoOperation,
    RebalanceAtWork,
    NoChunks,
    RebalanceIdle,
    NoHandle,
    NoShape,
}

// What a call answers: a task's step or start, or one of the rebalance.
#[derive(Clone, Copy)]
pub enum Report {
    Moved,
    // restarted, and why
    Frozen,
    Full,
    Lost,
    // a scan's key and value
    Pair(u64, u64),
    // finished, and the answer
    Value(u64),
    Absent,
    Done,
    True,
    False,
    // of the rebalance
    Waiting,
    Finished,
    Refused(u64),
}

// A stage's whole outcome: the task's own row afterwards, what changes elsewhere, and the report.
#[derive(Clone, Copy)]
pub struct Decision {
    pub task: Task,
    pub write: Write,
    pub report: Report,
}

impl Refusal {
    // The refusal's number.
    pub fn number(self) -> u64
        ensures { result ≡ number_of self }
    {
        match self {
            Refusal::NoTask => 1,
            Refusal::TaskAtWork => 2,
            Refusal::TaskIdle => 3,
            Refusal::ScanBackwards => 4,
            Refusal::NoOperation => 5,
            Refusal::RebalanceAtWork => 6,
            Refusal::NoChunks => 7,
            Refusal::RebalanceIdle => 8,
            Refusal::NoHandle => 9,
            Refusal::NoShape => 10,
        }
    }
}

impl From<Refusal> for Report {
    ghost from_gives = { λ why r. r ≡ report.Refused (number_of why) };

    fn from(why: Refusal) -> Report {
        Report::Refused(why.number())
    }
}

impl From<Result<Report, Refusal>> for Report {
    ghost from_gives = { λ x r. r ≡ told_by x };

    fn from(x: Result<Report, Refusal>) -> Report {
        match x {
            Ok(r) => r,
            Err(why) => Report::from(why),
        }
    }
}

// The operations, in the order of their numbers. A lent word may be any number, so a row keeps the number.
#[derive(Clone, Copy, PartialEq, Eq)]
pub enum Operation {
    Get,
    Put,
    PutIfAbsent,
    Upsert,
    Compute,
    Remove,
    Scan,
    ScanDown,
}

impl TryFrom<u64> for Operation {
    type Error = Refusal;

    ghost try_from_gives = { λ n r. r ≡ operation_of n };

    // The operation of the number.
    fn try_from(n: u64) -> Result<Operation, Refusal> {
        match n {
            1 => Ok(Operation::Get),
            2 => Ok(Operation::Put),
            3 => Ok(Operation::PutIfAbsent),
            4 => Ok(Operation::Upsert),
            5 => Ok(Operation::Compute),
            6 => Ok(Operation::Remove),
            7 => Ok(Operation::Scan),
            8 => Ok(Operation::ScanDown),
            _ => Err(Refusal::NoOperation),
        }
    }
}

// The functions of upsert and compute, in the order of their numbers.
#[derive(Clone, Copy, PartialEq, Eq)]
pub enum Function {
    Add,
    Larger,
    Or,
}

impl TryFrom<u64> for Function {
    type Error = Refusal;

    ghost try_from_gives = { λ n r. r ≡ function_of n };

    // The function of the number.
    fn try_from(n: u64) -> Result<Function, Refusal> {
        match n {
            1 => Ok(Function::Add),
            2 => Ok(Function::Larger),
            3 => Ok(Function::Or),
            _ => Err(Refusal::NoOperation),
        }
    }
}

// The stages of a rebalance under way, in the order of their numbers.
#[derive(Clone, Copy, PartialEq, Eq)]
pub enum RebalanceStage {
    Drain,
    Copy,
    SwapIn,
    Index,
    Release,
}

impl TryFrom<u64> for RebalanceStage {
    type Error = Refusal;

    ghost try_from_gives = { λ n r. r ≡ rebalance_stage_of n };

    // The stage of the number; any other is none that is under way.
    fn try_from(n: u64) -> Result<RebalanceStage, Refusal> {
        match n {
            1 => Ok(RebalanceStage::Drain),
            2 => Ok(RebalanceStage::Copy),
            3 => Ok(RebalanceStage::SwapIn),
            4 => Ok(RebalanceStage::Index),
            5 => Ok(RebalanceStage::Release),
            _ => Err(Refusal::RebalanceIdle),
        }
    }
}

// What a chunk's status says. A lent word may be any number, so a row keeps the number.
impl Chunk {
    pub const UNUSED: u64 = 0;

    pub const LIVE: u64 = 1;

    pub const NEW: u64 = 2;

    pub const RETIRED: u64 = 3;
}

// The limits belong to the directory, and are written once.
impl Directory {
    pub const TASKS: usize = 8;

    pub const CHUNKS: usize = 32;

    pub const ENTRIES: usize = 32;

    pub const HANDLES: usize = 560;

    // How many there are of each.
    pub fn sizes() -> Sizes
        ensures { result ≡ limits }
    {
        Sizes {
            tasks: Directory::TASKS,
            chunks: Directory::CHUNKS,
            entries: Directory::ENTRIES,
            handles: Directory::HANDLES,
        }
    }

    // A fresh directory's own row: chunk 0 is the first live one, no rebalance is under way, and one row is indexed.
    pub fn fresh() -> Directory
        ensures { result ≡ fresh_directory }
    {
        Directory {
            first: ChunkNo(0),
            stage: 0,
            old: ChunkNo(NONE),
            new: ChunkNo(NONE),
            second: ChunkNo(NONE),
            indexed: 1,
        }
    }
}
