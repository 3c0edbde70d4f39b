// What a call answers on its row, past the checks that all calls share. The option `explicit-open`, block, kind, row and call decide; the mount's
// read-only mark is looked at once, where a call is dispatched, and its account once, after that. The first of a call's checks that fails ends it, and
// its answer is made where they are passed.
#![tactic(auto, unfolding(types::specs::Verdicts::refuse, types::specs::Verdicts::answer_after, crate::specs::Decision::at_once, crate::specs::Decision::read_checks, crate::specs::Decision::read_row, crate::specs::Decision::write_checks, crate::specs::Decision::write_row, crate::specs::Decision::truncate_row, crate::specs::Decision::flush_row, crate::specs::Decision::open_checks, crate::specs::Decision::open_row, crate::specs::Decision::close_row, crate::specs::Decision::dispatched, crate::specs::Decision::limited), using(crate::proofs::Laws::read_fits, crate::proofs::Laws::write_fits))]

ghost use Rattle.std.specs.Prelude.{◌≡◌, true, false, ◌+◌, ◌-◌, ◌/◌, ◌^◌, ◌≤◌};
ghost use Rattle.types.specs.Blocks.{sector_bytes, good_block};
ghost use Rattle.types.specs.declared.FileKind.TheVariants.{Sequential};
ghost use Rattle.decision.specs.Decision.{changes, unreadable, unwritable, bad_target, beyond, misplaced, command_of, file_command, read_count, transfer, resize, read_checks, write_checks, read_row, write_row, truncate_row, flush_row, unopened, opening, open_checks, open_row, closing, close_row, answer_on, dispatched, opens_file, closes_file, counts, called, limits_of, limited};
ghost use Rattle.decision.specs.Facts.{Countable, Settles};

use types::answers::refuse_if;
use types::{
    Access, Account, Call, Command, CommandKind, FileKind, Granted, Refusal, Row, predicates, units,
};

// The most opens of one file.
// It stays a number of its own: that the most files of a kind are as many is chance.
const MOST_OPENS: u64 = 65535;

// Whether a call is none that a read-only mount still answers.
// Each call keeps its case, so that a new one is an error here.
fn changes(kind: FileKind, x: Call) -> bool
    ensures { result ≡ changes kind x }
{
    match x {
        Call::Read(_, _) | Call::Close => false,
        Call::Write(_, _) | Call::Truncate(_) | Call::Flush => true,
        Call::Open => !predicates::is_conventional(kind),
    }
}

fn is_unreadable(a: Access) -> bool
    ensures { result ≡ unreadable a }
{
    predicates::is_none(a)
}

fn is_unwritable(a: Access) -> bool
    ensures { result ≡ unwritable a }
{
    !predicates::is_write(a)
}

fn is_bad_target(kind: FileKind, capacity: u64, target: u64) -> bool
    ensures { result ≡ bad_target kind capacity target }
{
    match kind {
        FileKind::Conventional => true,
        FileKind::Sequential => !((target == 0) | (target == capacity)),
    }
}

// Under `explicit-open` a sequential file is written only while it is open.
fn is_unopened(explicit: bool, kind: FileKind, row: Row) -> bool
    ensures { result ≡ unopened explicit kind row }
{
    explicit & (!predicates::is_conventional(kind) & !account::is_open(row))
}

// Whether offset and length together pass the capacity, without their sum, which could wrap.
fn is_beyond(capacity: u64, offset: u64, length: u64) -> bool
    ensures { result ≡ beyond capacity offset length }
{
    (capacity < offset) | (capacity.saturating_sub(offset) < length)
}

fn is_misplaced(kind: FileKind, block: u64, size: u64, offset: u64, length: u64) -> bool
    requires { good_block block ≡ true }
    ensures { result ≡ misplaced kind block size offset length }
{
    match kind {
        FileKind::Conventional => false,
        FileKind::Sequential => {
            !(units::on_block(block, offset) & units::on_block(block, length)) | !(offset == size)
        }
    }
}

fn command_of(kind: CommandKind, start: u64, offset: u64, length: u64) -> Command
    requires { (start ≤ 2 ^ 40) × (offset ≤ 2 ^ 50) }
    ensures { result ≡ command_of kind start offset length }
{
    Command {
        kind,
        address: units::bytes_of(start) + offset,
        length,
    }
}

// A command on a whole file.
fn file_command(kind: CommandKind, row: Row) -> Command
    requires { row.start ≤ 2 ^ 40 }
    ensures { result ≡ file_command kind row }
{
    command_of(kind, row.start, 0, 0)
}

fn read_count(size: u64, offset: u64, length: u64) -> u64
    ensures { result ≡ read_count size offset length }
{
    length.min(size.saturating_sub(offset))
}

// A count of 0 is answered at once, and any other is commanded.
fn transfer(kind: CommandKind, start: u64, offset: u64, count: u64) -> Result<Granted, Refusal>
    requires { (start ≤ 2 ^ 40) × (offset ≤ 2 ^ 50) }
    ensures { result ≡ transfer kind start offset count }
{
    if count == 0 {
        Ok(Granted::Done(0))
    } else {
        Ok(Granted::Issue(command_of(kind, start, offset, count)))
    }
}

// The size that is there already is answered at once; any other is 0 or the capacity, and commanded.
fn resize(row: Row, target: u64) -> Result<Granted, Refusal>
    requires { row.start ≤ 2 ^ 40 }
    ensures { result ≡ resize row target }
{
    if target == row.size {
        Ok(Granted::Done(0))
    } else if target == 0 {
        Ok(Granted::Issue(file_command(CommandKind::Reset, row)))
    } else {
        Ok(Granted::Issue(file_command(CommandKind::Finish, row)))
    }
}

// 4 and 5.
fn read_checks(row: Row, offset: u64, length: u64) -> Result<(), Refusal>
    ensures { result ≡ read_checks row offset length }
{
    refuse_if(is_unreadable(row.access), Refusal::Denied)?;
    let beyond = is_beyond(row.capacity, offset, length);
    refuse_if(beyond, Refusal::BeyondCapacity)
}

// The calls are each small, for the compiler to see through them wherever it is known which of them is made.
pub fn read_row(row: Row, offset: u64, length: u64) -> Result<Granted, Refusal>
    requires { row.start + row.capacity / sector_bytes ≤ 2 ^ 40 }
    ensures { result ≡ read_row row offset length }
{
    read_checks(row, offset, length)?;
    let count = read_count(row.size, offset, length);
    transfer(CommandKind::Read, row.start, offset, count)
}

// 4, 13, 5, and of a sequential file 6.
fn write_checks(
    explicit: bool,
    block: u64,
    kind: FileKind,
    row: Row,
    offset: u64,
    length: u64,
) -> Result<(), Refusal>
    requires { good_block block ≡ true }
    ensures { result ≡ write_checks explicit block kind row offset length }
{
    refuse_if(is_unwritable(row.access), Refusal::Denied)?;
    refuse_if(is_unopened(explicit, kind, row), Refusal::NotOpen)?;
    let beyond = is_beyond(row.capacity, offset, length);
    refuse_if(beyond, Refusal::BeyondCapacity)?;
    let misplaced = is_misplaced(kind, block, row.size, offset, length);
    refuse_if(misplaced, Refusal::Misplaced)
}

pub fn write_row(
    explicit: bool,
    block: u64,
    kind: FileKind,
    row: Row,
    offset: u64,
    length: u64,
) -> Result<Granted, Refusal>
    requires { (good_block block ≡ true) × (row.start + row.capacity / sector_bytes ≤ 2 ^ 40) }
    ensures { result ≡ write_row explicit block kind row offset length }
{
    write_checks(explicit, block, kind, row, offset, length)?;
    transfer(CommandKind::Write, row.start, offset, length)
}

pub fn truncate_row(kind: FileKind, row: Row, target: u64) -> Result<Granted, Refusal>
    requires { row.start + row.capacity / sector_bytes ≤ 2 ^ 40 }
    ensures { result ≡ truncate_row kind row target }
{
    let denied = is_unwritable(row.access) | is_bad_target(kind, row.capacity, target);
    refuse_if(denied, Refusal::Denied)?;
    resize(row, target)
}

pub fn flush_row(row: Row) -> Result<Granted, Refusal>
    requires { row.start + row.capacity / sector_bytes ≤ 2 ^ 40 }
    ensures { result ≡ flush_row row }
{
    refuse_if(is_unwritable(row.access), Refusal::Denied)?;
    Ok(Granted::Issue(file_command(CommandKind::Flush, row)))
}

// The first open of a file that isn't full is commanded under `explicit-open`, and any other answered at once.
fn opening(explicit: bool, row: Row) -> Result<Granted, Refusal>
    requires { row.start ≤ 2 ^ 40 }
    ensures { result ≡ opening explicit row }
{
    if explicit & (!account::is_open(row) & !account::is_full(row)) {
        Ok(Granted::Issue(file_command(CommandKind::Open, row)))
    } else {
        Ok(Granted::Done(0))
    }
}

// 4 and 14.
fn open_checks(row: Row) -> Result<(), Refusal>
    ensures { result ≡ open_checks row }
{
    refuse_if(is_unwritable(row.access), Refusal::Denied)?;
    refuse_if(MOST_OPENS <= row.opens, Refusal::TooManyOpens)
}

fn open_sequential(explicit: bool, row: Row) -> Result<Granted, Refusal>
    requires { row.start + row.capacity / sector_bytes ≤ 2 ^ 40 }
    ensures { result ≡ open_row explicit Sequential row }
{
    open_checks(row)?;
    opening(explicit, row)
}

pub fn open_row(explicit: bool, kind: FileKind, row: Row) -> Result<Granted, Refusal>
    requires { row.start + row.capacity / sector_bytes ≤ 2 ^ 40 }
    ensures { result ≡ open_row explicit kind row }
{
    match kind {
        FileKind::Conventional => Ok(Granted::Done(0)),
        FileKind::Sequential => open_sequential(explicit, row),
    }
}

// The last close of a file neither empty nor full is commanded under `explicit-open`, and any other answered at once.
fn closing(explicit: bool, row: Row) -> Result<Granted, Refusal>
    requires { row.start ≤ 2 ^ 40 }
    ensures { result ≡ closing explicit row }
{
    let between = !account::is_empty(row) & !account::is_full(row);
    if explicit & ((row.opens == 1) & between) {
        Ok(Granted::Issue(file_command(CommandKind::Close, row)))
    } else {
        Ok(Granted::Done(0))
    }
}

fn close_sequential(explicit: bool, row: Row) -> Result<Granted, Refusal>
    requires { row.start + row.capacity / sector_bytes ≤ 2 ^ 40 }
    ensures { result ≡ close_row explicit Sequential row }
{
    refuse_if(!account::is_open(row), Refusal::NotOpen)?;
    closing(explicit, row)
}

pub fn close_row(explicit: bool, kind: FileKind, row: Row) -> Result<Granted, Refusal>
    requires { row.start + row.capacity / sector_bytes ≤ 2 ^ 40 }
    ensures { result ≡ close_row explicit kind row }
{
    match kind {
        FileKind::Conventional => Ok(Granted::Done(0)),
        FileKind::Sequential => close_sequential(explicit, row),
    }
}

fn answer_on(
    explicit: bool,
    block: u64,
    kind: FileKind,
    row: Row,
    x: Call,
) -> Result<Granted, Refusal>
    requires { (good_block block ≡ true) × (row.start + row.capacity / sector_bytes ≤ 2 ^ 40) }
    ensures { result ≡ answer_on explicit block kind row x }
{
    match x {
        Call::Read(offset, length) => read_row(row, offset, length),
        Call::Write(offset, length) => write_row(explicit, block, kind, row, offset, length),
        Call::Truncate(target) => truncate_row(kind, row, target),
        Call::Flush => flush_row(row),
        Call::Open => open_row(explicit, kind, row),
        Call::Close => close_row(explicit, kind, row),
    }
}

// A call on its row: check 3, and then as the row says.
pub fn dispatch(
    readonly: bool,
    explicit: bool,
    block: u64,
    kind: FileKind,
    row: Row,
    x: Call,
) -> Result<Granted, Refusal>
    requires { (good_block block ≡ true) × (row.start + row.capacity / sector_bytes ≤ 2 ^ 40) }
    ensures { result ≡ dispatched readonly explicit block kind row x }
{
    refuse_if(readonly & changes(kind, x), Refusal::ReadOnlyMount)?;
    answer_on(explicit, block, kind, row, x)
}

// Whether a call is an open of a sequential file, and whether it is a close of one.
fn opens_file(kind: FileKind, x: Call) -> bool
    ensures { result ≡ opens_file kind x }
{
    matches!(x, Call::Open) & !predicates::is_conventional(kind)
}

fn closes_file(kind: FileKind, x: Call) -> bool
    ensures { result ≡ closes_file kind x }
{
    matches!(x, Call::Close) & !predicates::is_conventional(kind)
}

pub fn is_counting(kind: FileKind, x: Call) -> bool
    ensures { result ≡ counts kind x }
{
    opens_file(kind, x) | closes_file(kind, x)
}

// One open less.
fn one_less(opens: u64) -> u64
    ensures { result ≡ opens - 1 }
{
    opens.saturating_sub(1)
}

// The row once a call is commanded or answered: with one open more or less.
pub fn called(kind: FileKind, x: Call, row: Row) -> Row
    requires { Countable kind x row }
    ensures { result ≡ called kind x row }
{
    if opens_file(kind, x) {
        table::with_opens(row, row.opens + 1)
    } else if closes_file(kind, x) {
        table::with_opens(row, one_less(row.opens))
    } else {
        row
    }
}

// What the account finds of a call that was not refused so far: 11 and 12 of an open.
fn limits_of(
    explicit: bool,
    account: Account,
    kind: FileKind,
    row: Row,
    x: Call,
) -> Result<(), Refusal>
    requires { Countable kind x row }
    ensures { result ≡ limits_of explicit account kind row x }
{
    if opens_file(kind, x) {
        account::limit_check(explicit, account, row, called(kind, x, row))
    } else {
        Ok(())
    }
}

// The answer within the account's limits. One that is refused already stays so.
pub fn within_limits(
    explicit: bool,
    account: Account,
    kind: FileKind,
    row: Row,
    x: Call,
    answer: Result<Granted, Refusal>,
) -> Result<Granted, Refusal>
    requires { Settles kind x row answer }
    ensures { result ≡ limited (limits_of explicit account kind row x) answer }
{
    let granted = answer?;
    limits_of(explicit, account, kind, row, x)?;
    Ok(granted)
}
