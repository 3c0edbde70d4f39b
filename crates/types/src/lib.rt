// The values that every layer speaks of: files and their rows, commands, the mount, refusals and answers.
#![tactic(auto)]

pub mod answers; // what each answer is in numbers; a chain of checks
pub mod codes; // the number of each kind, condition, access, policy and command, and back; of a zone's fault
pub mod commands; // what a command moves, and whether it is a read or an open
pub mod effects; // what a call or a completion does where nothing is stored
pub mod mounts; // the empty mount value, and what calls and completions change of one
pub mod predicates; // tests of a kind, a condition, an access, and of what is outstanding
pub mod units; // sectors, blocks, and the limits of disks and mounts

#[derive(Clone, Copy, PartialEq, Eq)]
pub enum FileKind {
    Conventional,
    Sequential,
}

// The condition of a zone, as far as a file can tell.
#[derive(Clone, Copy, PartialEq, Eq)]
pub enum Condition {
    Healthy,
    ReadOnly,
    Offline,
}

// What a file still allows. Write includes read.
#[derive(Clone, Copy, PartialEq, Eq)]
pub enum Access {
    Nothing,
    Read,
    Write,
}

// The mount option `errors=`.
#[derive(Clone, Copy)]
pub enum ErrorPolicy {
    RemountRo,
    ZoneRo,
    ZoneOffline,
    Repair,
}

#[derive(Clone, Copy, PartialEq, Eq)]
pub enum CommandKind {
    Read,
    Write,
    Reset,
    Finish,
    Flush,
    Open,
    Close,
}

// What a command that is done moves: the size of its file, and the pointer of its zone.
// It stays a switch on what is moved: the disk's rules are stated over it (`movement_of` of the specs).
#[derive(Clone, Copy)]
pub enum Movement {
    Stays,
    // By the command's length.
    Advances,
    ToStart,
    // To the capacity.
    ToEnd,
}

// A command to the disk. Address and length in bytes; the length is 0 but for reads and writes.
#[derive(Clone, Copy, PartialEq, Eq)]
pub struct Command {
    pub kind: CommandKind,
    pub address: u64,
    pub length: u64,
}

// What is outstanding on a file: nothing, an issued command, or a code that is no command's. The last is never stored: it is what the words of
// a lent table may say, and a completion then answers 10.
// It stays an enum of three cases: `is_busy` and `pending_by` of the specs answer on each of them.
#[derive(Clone, Copy)]
pub enum Outstanding {
    Idle,
    Busy(Command),
    Unknown,
}

// A file: the one command that it may have outstanding, its first sector, and its capacity and size in bytes. What is outstanding comes first, so that
// it has the same place in a `table::Slot` that is no row: else each read of a row packs it into bytes.
#[derive(Clone, Copy)]
pub struct Row {
    pub outstanding: Outstanding,
    pub start: u64,
    pub capacity: u64,
    pub size: u64,
    pub condition: Condition,
    pub access: Access,
    // How many opens for writing the file has.
    pub opens: u64,
}

// A call on a file, with its arguments: offset and length, or the size wanted. An open is for writing.
#[derive(Clone, Copy)]
pub enum Call {
    Read(u64, u64),
    Write(u64, u64),
    Truncate(u64),
    Flush,
    Open,
    Close,
}

// An issued command, with the file that it concerns.
#[derive(Clone, Copy)]
pub struct Held {
    pub kind: FileKind,
    pub number: u32,
    pub command: Command,
}

// What a mount fixes for good. `conventional` and `sequential` count the files of each kind.
#[derive(Clone, Copy)]
pub struct Volume {
    pub block: u64,
    pub conventional: u32,
    pub sequential: u32,
    pub owner: u32,
    pub group: u32,
    pub mode: u32,
    pub policy: ErrorPolicy,
    // The option `explicit-open`.
    pub explicit: bool,
    pub uuid: [u8; 16],
}

// The running account of sequential files: how many are open for writing and how many active, and the limit of each, where 0 is none.
#[derive(Clone, Copy)]
pub struct Account {
    pub opened: u32,
    pub active: u32,
    pub open_limit: u32,
    pub active_limit: u32,
}

// A mount: what it fixes, its read-only mark, which a completion may set, and its account, which opens, closes and completions correct.
#[derive(Clone, Copy)]
pub struct Mount {
    pub volume: Volume,
    pub readonly: bool,
    pub account: Account,
}

// What is wrong with a zone, by the test that it fails first, in the order of the tests. The last two are for the record of a failed
// command, which has to be of its file's zone.
#[derive(Clone, Copy)]
pub enum ZoneFault {
    Start,
    Length,
    Capacity,
    End,
    Type,
    Condition,
    Pointer,
    OtherZone,
    BetterCondition,
}

// Why something was refused: the lines of paper 01's table, in its order, and then those of paper 02.
#[derive(Clone, Copy)]
pub enum Refusal {
    NoFile,
    Busy,
    ReadOnlyMount,
    Denied,
    BeyondCapacity,
    Misplaced,
    // The disk failed the command, and the file now has this size.
    Failed(u64),
    NothingOutstanding,
    // Why the record doesn't fit.
    BadRecord(Option<ZoneFault>),
    Impossible,
    BadBlock,
    SuperLength,
    SuperMagic,
    SuperChecksum,
    SuperFeatures,
    SuperOwner,
    SuperTail,
    BadOptions,
    BadReport,
    // The lowest number of a bad zone, and why it is bad.
    BadZone(u32, Option<ZoneFault>),
    TooFewRows,
    SuperPerm,
    LabelLength,
    OpenLimit,
    ActiveLimit,
    NotOpen,
    TooManyOpens,
}

// The values that a refusal tells beside its number.
// Three cases stay: up to two numbers in a row are no plainer as an option in an option.
#[derive(Clone, Copy)]
pub enum Values {
    Nothing,
    One(u64),
    Two(u64, u64),
}

// A refusal in numbers.
#[derive(Clone, Copy)]
pub struct RefusalCode {
    pub number: u64,
    pub values: Values,
}

// What a call or a completion answers where it isn't refused: a count with nothing more to do, or a command to be done.
#[derive(Clone, Copy)]
pub enum Granted {
    Done(u64),
    Issue(Command),
}

// What a call or a completion gives beside the tables.
// The answer stays beside the mount: 7 refuses and changes the mount (`recovering` of the specs).
#[derive(Clone, Copy)]
pub struct Outcome {
    pub answer: Result<Granted, Refusal>,
    pub mount: Mount,
}

// What a call or a completion does: its answer with the mount after it, and what it stores: nothing, or the row of a
// file.
#[derive(Clone, Copy)]
pub struct Effect {
    pub outcome: Outcome,
    pub store: Option<(FileKind, u32, Row)>,
}

// What a mount gives beside the tables: the numbers of conventional and of sequential files, or why it was refused.
// The answer stays beside the mount: a refusal hands out the empty one (`mount_outcome` of the specs), and C gets its words.
#[derive(Clone, Copy)]
pub struct MountOutcome {
    pub answer: Result<(u32, u32), Refusal>,
    pub mount: Mount,
}
