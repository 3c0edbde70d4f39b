// A lent table: `ROW_WORDS` words to a row, the start in sectors, the capacity and the size in bytes, the codes of condition and access, and
// the held command: 1 + its code, or 0 for none, its address and its length in bytes; and how many opens the file has.
// Everything that takes a row apart or puts one together is here.
#![tactic(auto)]

ghost use Rattle.std.specs.Prelude.{◌≡◌, ◌<◌, length};
ghost use Rattle.types.specs.declared.FileKind.TheVariants as files;
ghost use Rattle.table.specs.Facts.{StoreFits};
ghost use Rattle.table.specs.Rows.{rows_lent, held_code, held_address, held_length, condition_read, access_read, held_read, slot_with, slot_of, outstanding_in, row_at, set_row, stored, healthy_row, offline_row, with_size, recovered_to, with_outstanding, with_opens, holding, cleared};

use types::{Access, Command, Condition, FileKind, Outstanding, Row};

// The words of a row, and where they stand behind the first, its start.
pub const ROW_WORDS: usize = 9;

const CAPACITY: usize = 1;

const SIZE: usize = 2;

const CONDITION: usize = 3;

const ACCESS: usize = 4;

const HELD: usize = 5;

const HELD_ADDRESS: usize = 6;

const HELD_LENGTH: usize = 7;

const OPENS: usize = 8;

// How many rows so many words hold. Words left over are never read or written.
pub fn rows_lent(words: usize) -> usize
    ensures { result ≡ rows_lent words }
{
    words / ROW_WORDS
}

fn condition_read(code: u64) -> Option<Condition>
    ensures { result ≡ condition_read code }
{
    match code {
        0 => Some(Condition::Healthy),
        1 => Some(Condition::ReadOnly),
        2 => Some(Condition::Offline),
        _ => None,
    }
}

fn access_read(code: u64) -> Option<Access>
    ensures { result ≡ access_read code }
{
    match code {
        0 => Some(Access::Nothing),
        1 => Some(Access::Read),
        2 => Some(Access::Write),
        _ => None,
    }
}

// What the three words of a held command say. Where nothing is held the last two mean nothing.
fn held_read(code: u64, address: u64, length: u64) -> Outstanding
    ensures { result ≡ held_read code address length }
{
    if code == 0 {
        return Outstanding::Idle;
    }
    if code <= types::codes::COMMANDS {
        Outstanding::Busy(Command {
            kind: types::codes::command_from(code - 1),
            address,
            length,
        })
    } else {
        Outstanding::Unknown
    }
}

fn slot_with(
    start: u64,
    capacity: u64,
    size: u64,
    condition: Option<Condition>,
    access: Option<Access>,
    outstanding: Outstanding,
    opens: u64,
) -> Result<Row, Outstanding>
    ensures { result ≡ slot_with start capacity size condition access outstanding opens }
{
    let Some(condition) = condition else {
        return Err(outstanding);
    };
    let Some(access) = access else {
        return Err(outstanding);
    };
    Ok(Row {
        start,
        capacity,
        size,
        condition,
        access,
        outstanding,
        opens,
    })
}

fn slot_of(
    start: u64,
    capacity: u64,
    size: u64,
    condition: u64,
    access: u64,
    outstanding: Outstanding,
    opens: u64,
) -> Result<Row, Outstanding>
    ensures { result ≡ slot_of start capacity size condition access outstanding opens }
{
    slot_with(
        start,
        capacity,
        size,
        condition_read(condition),
        access_read(access),
        outstanding,
        opens,
    )
}

// What is outstanding, of a row that is one or isn't.
pub fn outstanding_in(slot: Result<Row, Outstanding>) -> Outstanding
    ensures { result ≡ outstanding_in slot }
{
    match slot {
        Ok(row) => row.outstanding,
        Err(outstanding) => outstanding,
    }
}

// The row of number `i`.
#[tactic(auto, unfolding(crate::specs::Rows::row_at))]
pub fn row_at(t: &[u64], i: usize) -> Result<Row, Outstanding>
    requires { i < rows_lent (length t.now) }
    ensures { result ≡ row_at t.now i }
{
    let b = i * ROW_WORDS;
    let outstanding = held_read(t[b + HELD], t[b + HELD_ADDRESS], t[b + HELD_LENGTH]);
    slot_of(
        t[b],
        t[b + CAPACITY],
        t[b + SIZE],
        t[b + CONDITION],
        t[b + ACCESS],
        outstanding,
        t[b + OPENS],
    )
}

// The words of what is outstanding: its code, its address and its length.
fn held_code(o: Outstanding) -> u64
    ensures { result ≡ held_code o }
{
    match o {
        Outstanding::Idle => 0,
        Outstanding::Busy(c) => 1 + u64::from(c.kind),
        Outstanding::Unknown => 1 + types::codes::COMMANDS,
    }
}

fn held_address(o: Outstanding) -> u64
    ensures { result ≡ held_address o }
{
    match o {
        Outstanding::Idle => 0,
        Outstanding::Busy(c) => c.address,
        Outstanding::Unknown => 0,
    }
}

fn held_length(o: Outstanding) -> u64
    ensures { result ≡ held_length o }
{
    match o {
        Outstanding::Idle => 0,
        Outstanding::Busy(c) => c.length,
        Outstanding::Unknown => 0,
    }
}

// Stores a row at number `i`.
// A line to each field stays: they have different types, and named places.
#[tactic(auto, unfolding(crate::specs::Rows::set_row))]
pub fn put_row(t: &mut [u64], i: usize, row: Row)
    requires { i < rows_lent (length t.old) }
    ensures { t.new ≡ set_row t.old i row }
{
    let b = i * ROW_WORDS;
    t[b] = row.start;
    t[b + CAPACITY] = row.capacity;
    t[b + SIZE] = row.size;
    t[b + CONDITION] = u64::from(row.condition);
    t[b + ACCESS] = u64::from(row.access);
    t[b + HELD] = held_code(row.outstanding);
    t[b + HELD_ADDRESS] = held_address(row.outstanding);
    t[b + HELD_LENGTH] = held_length(row.outstanding);
    t[b + OPENS] = row.opens;
}

// Stores what a call or a completion says: nothing, or a row in the table of its kind.
pub fn put_store(cnv: &mut [u64], seq: &mut [u64], store: Option<(FileKind, u32, Row)>)
    requires { StoreFits cnv.old seq.old store }
    ensures cnv_after { cnv.new ≡ stored files.Conventional store cnv.old }
    ensures seq_after { seq.new ≡ stored files.Sequential store seq.old }
{
    if let Some((kind, number, row)) = store {
        match kind {
            FileKind::Conventional => put_row(cnv, number as usize, row),
            FileKind::Sequential => put_row(seq, number as usize, row),
        }
    }
}

// A file that is found healthy at mount.
// It and `offline_row` stay two: their rows have other values, and no argument tells them apart.
pub fn healthy_row(start: u64, capacity: u64, size: u64) -> Row
    ensures { result ≡ healthy_row start capacity size }
{
    Row {
        start,
        capacity,
        size,
        condition: Condition::Healthy,
        access: Access::Write,
        outstanding: Outstanding::Idle,
        opens: 0,
    }
}

// A file that is found read-only or offline at mount.
pub fn offline_row(start: u64, capacity: u64) -> Row
    ensures { result ≡ offline_row start capacity }
{
    Row {
        start,
        capacity,
        size: 0,
        condition: Condition::Offline,
        access: Access::Nothing,
        outstanding: Outstanding::Idle,
        opens: 0,
    }
}

// The row with another size.
pub fn with_size(row: Row, size: u64) -> Row
    ensures { result ≡ with_size row size }
{
    Row { size, ..row }
}

// The row with what a recovery sets.
pub fn recovered_to(row: Row, size: u64, condition: Condition, access: Access) -> Row
    ensures { result ≡ recovered_to row size condition access }
{
    Row {
        size,
        condition,
        access,
        ..row
    }
}

// The row with something else outstanding.
fn with_outstanding(row: Row, outstanding: Outstanding) -> Row
    ensures { result ≡ with_outstanding row outstanding }
{
    Row { outstanding, ..row }
}

// The row with another number of opens.
pub fn with_opens(row: Row, opens: u64) -> Row
    ensures { result ≡ with_opens row opens }
{
    Row { opens, ..row }
}

// The row with a command outstanding.
pub fn holding(row: Row, command: Command) -> Row
    ensures { result ≡ holding row command }
{
    with_outstanding(row, Outstanding::Busy(command))
}

// The row with nothing outstanding.
pub fn cleared(row: Row) -> Row
    ensures { result ≡ cleared row }
{
    with_outstanding(row, Outstanding::Idle)
}
