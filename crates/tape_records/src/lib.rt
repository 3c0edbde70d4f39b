// The records of a tape, read from its bytes.
#![tactic(auto)]

ghost use Rattle.std.specs.Prelude.{◌≡◌, true, ◌+◌, ◌≤◌, length};
ghost use Rattle.report.specs.Report.{header_bytes};
ghost use Rattle.tape_records.specs.Records.{holds, mark_bytes, pair, letters_of, mark_of, letters_at, mark_at, kind_at, number_at, named_bytes, call_bytes, on_file_at, offset_at, length_at, end_mark, end_bytes, end_at, end_record, record_bytes, record_of, record_at, report_start, report_length, mount_place, mount_bytes, limits_place, run_place, stands, starts_well, mount_stands, opens, block_of, super_bytes, report_bytes, option_bytes, open_limit_of, active_limit_of};
ghost use Rattle.tape_records.specs.Facts.{Stands, longest_report, longest_options, Opened};

use report::HEADER_BYTES;
use superblock::SUPER_BYTES;
use types::Call;
use zones::ZONE_BYTES;

// The tape's own limits: the zones of its report, and the files of a kind. Zone 0 is none.
const TAPE_ZONES: usize = 1023;

pub const TAPE_FILES: usize = 1022;

const MARK_BYTES: usize = 2;

// The file that a call or the end of a command names: where its kind and number stand, and where the rest of the record starts.
const KIND_AT: usize = 2;

const NUMBER_AT: usize = 3;

const NAMED_BYTES: usize = 7;

// A call's record: where its other fields stand, and its length.
const OFFSET_AT: usize = 7;

const LENGTH_AT: usize = 15;

pub const CALL_BYTES: usize = 23;

// The record of a failed command, the longest after `MO`: a zone's record follows the file.
pub const FAILED_BYTES: usize = NAMED_BYTES + ZONE_BYTES;

// The first four records: `SB` stands after `BK` and its two bytes, `ZR` after `SB` and its super block, `MO` after the report.
const SUPER_PLACE: usize = MARK_BYTES + 2;

const SUPER_START: usize = SUPER_PLACE + MARK_BYTES;

const REPORT_PLACE: usize = SUPER_START + SUPER_BYTES;

const REPORT_START: usize = REPORT_PLACE + MARK_BYTES;

// The mark of `MO` and the length of its options.
const MOUNT_BYTES: usize = MARK_BYTES + 1;

// The two limits after the options, the open one first, and where the other stands among them.
const LIMITS_BYTES: usize = 8;

const ACTIVE_LIMIT_AT: usize = 4;

// The two bytes of a mark.
#[derive(Clone, Copy, PartialEq, Eq)]
pub struct Letters {
    pub first: u8,
    pub second: u8,
}

// The mark of a record after `MO`.
#[derive(Clone, Copy)]
pub enum Mark {
    Read,
    Write,
    Truncate,
    Flush,
    Open,
    Close,
    Good,
    Failed,
    // Not None: a record that is none of these is printed by letters of its own, `broken_line`.
    Unknown,
}

// A record after `MO`.
#[derive(Clone, Copy)]
pub enum Record {
    // A call: the byte of the file's kind, its number, and the call.
    OnFile(u8, u32, Call),
    // The end of a command: the byte of its file's kind, the file's number, and whether the command was done well. If it failed, its zone's record
    // follows.
    End(u8, u32, bool),
}

fn holds(b: &[u8], at: usize, n: usize) -> bool
    ensures value { result ≡ holds n b.now at }
    ensures n_in_bounds { result ≡ true → at + n ≤ length b.now }
{
    at <= b.len() && n <= b.len() - at
}

fn pair(first: u8, second: u8) -> Letters
    ensures { result ≡ pair first second }
{
    Letters { first, second }
}

// The letters of a mark.
pub fn letters_of(m: Mark) -> Letters
    ensures { result ≡ letters_of m }
{
    match m {
        Mark::Read => pair(b'R', b'D'),
        Mark::Write => pair(b'W', b'R'),
        Mark::Truncate => pair(b'T', b'R'),
        Mark::Flush => pair(b'F', b'L'),
        Mark::Open => pair(b'O', b'P'),
        Mark::Close => pair(b'C', b'L'),
        Mark::Good => pair(b'O', b'K'),
        Mark::Failed => pair(b'N', b'O'),
        Mark::Unknown => pair(b'?', b'?'),
    }
}

// The mark of two letters.
#[tactic(auto, unfolding(crate::specs::Records::mark_of, crate::specs::Records::pick))]
fn mark_of(l: Letters) -> Mark
    ensures { result ≡ mark_of l }
{
    match (l.first, l.second) {
        (b'R', b'D') => Mark::Read,
        (b'W', b'R') => Mark::Write,
        (b'T', b'R') => Mark::Truncate,
        (b'F', b'L') => Mark::Flush,
        (b'O', b'P') => Mark::Open,
        (b'C', b'L') => Mark::Close,
        (b'O', b'K') => Mark::Good,
        (b'N', b'O') => Mark::Failed,
        _ => Mark::Unknown,
    }
}

fn letters_at(b: &[u8], at: usize) -> Letters
    requires { at + mark_bytes ≤ length b.now }
    ensures { result ≡ letters_at b.now at }
{
    pair(b[at], b[at + 1])
}

fn mark_at(b: &[u8], at: usize) -> Mark
    ensures { result ≡ mark_at b.now at }
{
    if holds(b, at, MARK_BYTES) {
        mark_of(letters_at(b, at))
    } else {
        Mark::Unknown
    }
}

// The mark of the end of a command, and the length of its record.
pub fn end_mark(done: bool) -> Mark
    ensures { result ≡ end_mark done }
{
    if done { Mark::Good } else { Mark::Failed }
}

pub fn end_bytes(done: bool) -> usize
    ensures value { result ≡ end_bytes done }
    ensures lower_bound { named_bytes ≤ result }
{
    if done { NAMED_BYTES } else { FAILED_BYTES }
}

// What follows its file: nothing, or the zone's record.
pub fn end_record(b: &[u8], at: usize, done: bool) -> &[u8]
    requires { at + end_bytes done ≤ length b.now }
    ensures { result.now ≡ end_record done b.now at }
{
    let from = at + NAMED_BYTES;
    let end = at + end_bytes(done);
    &b[from..end]
}

// The length of a mark's record.
fn record_bytes(m: Mark) -> usize
    ensures { result ≡ record_bytes m }
{
    match m {
        Mark::Read => CALL_BYTES,
        Mark::Write => CALL_BYTES,
        Mark::Truncate => CALL_BYTES,
        Mark::Flush => CALL_BYTES,
        Mark::Open => CALL_BYTES,
        Mark::Close => CALL_BYTES,
        Mark::Good => NAMED_BYTES,
        Mark::Failed => FAILED_BYTES,
        Mark::Unknown => MARK_BYTES,
    }
}

// The file that a record names.
fn kind_at(b: &[u8], at: usize) -> u8
    requires { at + named_bytes ≤ length b.now }
    ensures { result ≡ kind_at b.now at }
{
    b[at + KIND_AT]
}

fn number_at(b: &[u8], at: usize) -> u32
    requires { at + named_bytes ≤ length b.now }
    ensures { result ≡ number_at b.now at }
{
    wire::u32_at(b, at + NUMBER_AT)
}

fn on_file_at(b: &[u8], at: usize, x: Call) -> Option<Record>
    requires { at + call_bytes ≤ length b.now }
    ensures value { result ≡ on_file_at b.now at x }
    ensures stands { Stands result b.now at }
{
    Some(Record::OnFile(kind_at(b, at), number_at(b, at), x))
}

fn end_at(b: &[u8], at: usize, done: bool) -> Option<Record>
    requires { at + end_bytes done ≤ length b.now }
    ensures value { result ≡ end_at b.now at done }
    ensures stands { Stands result b.now at }
{
    Some(Record::End(kind_at(b, at), number_at(b, at), done))
}

fn offset_at(b: &[u8], at: usize) -> u64
    requires { at + call_bytes ≤ length b.now }
    ensures { result ≡ offset_at b.now at }
{
    wire::u64_at(b, at + OFFSET_AT)
}

fn length_at(b: &[u8], at: usize) -> u64
    requires { at + call_bytes ≤ length b.now }
    ensures { result ≡ length_at b.now at }
{
    wire::u64_at(b, at + LENGTH_AT)
}

// What the whole record of a mark says.
fn record_of(m: Mark, b: &[u8], at: usize) -> Option<Record>
    requires { at + record_bytes m ≤ length b.now }
    ensures value { result ≡ record_of m b.now at }
    ensures stands { Stands result b.now at }
{
    match m {
        Mark::Read => on_file_at(b, at, Call::Read(offset_at(b, at), length_at(b, at))),
        Mark::Write => on_file_at(b, at, Call::Write(offset_at(b, at), length_at(b, at))),
        Mark::Truncate => on_file_at(b, at, Call::Truncate(length_at(b, at))),
        Mark::Flush => on_file_at(b, at, Call::Flush),
        Mark::Open => on_file_at(b, at, Call::Open),
        Mark::Close => on_file_at(b, at, Call::Close),
        Mark::Good => end_at(b, at, true),
        Mark::Failed => end_at(b, at, false),
        Mark::Unknown => None,
    }
}

// The record at `at`, where it is known, whole and not misplaced.
#[tactic(auto, unfolding(crate::specs::Records::record_at))]
pub fn record_at(b: &[u8], at: usize) -> Option<Record>
    ensures value { result ≡ record_at b.now at }
    ensures stands { Stands result b.now at }
{
    let mark = mark_at(b, at);
    if holds(b, at, record_bytes(mark)) {
        record_of(mark, b, at)
    } else {
        None
    }
}

// The length of a report that says it has so many zones.
fn report_length(count: usize) -> usize
    ensures { (result ≡ report_length count) × (result ≤ longest_report) }
{
    if count <= TAPE_ZONES {
        HEADER_BYTES + ZONE_BYTES * count
    } else {
        HEADER_BYTES
    }
}

// Where `MO` is due.
fn mount_place(b: &[u8]) -> usize
    requires { report_start + header_bytes ≤ length b.now }
    ensures { (result ≡ mount_place b.now) × (result ≤ report_start + longest_report) }
{
    REPORT_START + report_length(report::zone_count(&b[REPORT_START..]))
}

// Where the limits start that `MO` ends with.
fn limits_place(b: &[u8]) -> usize
    requires { (report_start + header_bytes ≤ length b.now) × (mount_place b.now + mount_bytes ≤ length b.now) }
    ensures { (result ≡ limits_place b.now) × (result ≤ longest_options) }
{
    let at = mount_place(b);
    at + MOUNT_BYTES + wire::u8_at(b, at + MARK_BYTES) as usize
}

// Where the records after `MO` start.
pub fn run_place(b: &[u8]) -> usize
    requires { (report_start + header_bytes ≤ length b.now) × (mount_place b.now + mount_bytes ≤ length b.now) }
    ensures { result ≡ run_place b.now }
{
    limits_place(b) + LIMITS_BYTES
}

// A record of `n` bytes with these letters stands at `at`.
fn stands(b: &[u8], at: usize, l: Letters, n: usize) -> bool
    requires { mark_bytes ≤ n }
    ensures value { result ≡ stands l n b.now at }
    ensures n_in_bounds { result ≡ true → at + n ≤ length b.now }
{
    holds(b, at, n) && letters_at(b, at) == l
}

// The first three records stand where they are due, as far as the report's header.
fn starts_well(b: &[u8]) -> bool
    ensures value { result ≡ starts_well b.now }
    ensures header_bytes_in_bounds { result ≡ true → report_start + header_bytes ≤ length b.now }
{
    stands(b, 0, pair(b'B', b'K'), SUPER_PLACE)
        & stands(b, SUPER_PLACE, pair(b'S', b'B'), MARK_BYTES + SUPER_BYTES)
        & stands(b, REPORT_PLACE, pair(b'Z', b'R'), MARK_BYTES + HEADER_BYTES)
}

// `MO` stands after the report.
fn mount_stands(b: &[u8]) -> bool
    requires { report_start + header_bytes ≤ length b.now }
    ensures value { result ≡ mount_stands b.now }
    ensures opened { result ≡ true → Opened b.now }
{
    stands(b, mount_place(b), pair(b'M', b'O'), MOUNT_BYTES) && run_place(b) <= b.len()
}

// The first four records stand where they are due.
#[tactic(auto, unfolding(crate::specs::Records::opens))]
pub fn opens(b: &[u8]) -> bool
    ensures value { result ≡ opens b.now }
    ensures opened { result ≡ true → Opened b.now }
{
    starts_well(b) && mount_stands(b)
}

// What the first four records say: the block size, the super block, the report, the mount options and the limits.
pub fn block_of(b: &[u8]) -> u16
    requires { Opened b.now }
    ensures { result ≡ block_of b.now }
{
    wire::u16_at(b, MARK_BYTES)
}

pub fn super_bytes(b: &[u8]) -> &[u8]
    requires { Opened b.now }
    ensures { result.now ≡ super_bytes b.now }
{
    &b[SUPER_START..REPORT_PLACE]
}

pub fn report_bytes(b: &[u8]) -> &[u8]
    requires { Opened b.now }
    ensures { result.now ≡ report_bytes b.now }
{
    let end = mount_place(b);
    &b[REPORT_START..end]
}

pub fn option_bytes(b: &[u8]) -> &[u8]
    requires { Opened b.now }
    ensures { result.now ≡ option_bytes b.now }
{
    let from = mount_place(b) + MOUNT_BYTES;
    let end = limits_place(b);
    &b[from..end]
}

pub fn open_limit_of(b: &[u8]) -> u32
    requires { Opened b.now }
    ensures { result ≡ open_limit_of b.now }
{
    wire::u32_at(b, limits_place(b))
}

pub fn active_limit_of(b: &[u8]) -> u32
    requires { Opened b.now }
    ensures { result ≡ active_limit_of b.now }
{
    wire::u32_at(b, limits_place(b) + ACTIVE_LIMIT_AT)
}
