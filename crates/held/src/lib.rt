// The held command of a completion: 10 of the counts, 1, 8, and 10 of the row, which asks whether some call on it would issue the command.
#![tactic(auto)]

ghost use Rattle.std.specs.Prelude.{◌≡◌, true, ◌+◌, ◌-◌, ◌/◌, ◌≤◌, ◌^◌};
ghost use Rattle.types.specs.Blocks.{sector_bytes, good_block, bytes_of};
ghost use Rattle.table.specs.Rows.{outstanding_in};
ghost use Rattle.checks.specs.Checks.{openable, sound_slot};
ghost use Rattle.checks.specs.Facts.{Ends, Openable};
ghost use Rattle.held.specs.Held.{issues, issuable, held_on, pending_by, pending_of};
ghost use Rattle.held.specs.Facts.{PendingTells};

use types::{Command, CommandKind, FileKind, Granted, Held, Mount, Outstanding, Refusal, Row};

fn issues_it(a: Result<Granted, Refusal>, c: Command) -> bool
    ensures { result ≡ issues a c }
{
    matches!(a, Ok(Granted::Issue(issued)) if issued == c)
}

// How far an address lies past the start of its file, 0 where it doesn't.
fn offset_from(start: u64, address: u64) -> u64
    requires { start ≤ 2 ^ 40 }
    ensures { result ≡ address - bytes_of start }
{
    address.saturating_sub(types::units::bytes_of(start))
}

// Whether some call on this row would issue the command: the one that would have is made again, on the row as it stood before. Only a first open and a
// last close are commanded: one finds a file without opens, the other with one. The read-only mark isn't looked at. By the command's kind, and not
// by way of `decision::dispatch`: a larger function with two callers would be a call of its own, which copies the row.
fn is_issuable(explicit: bool, block: u64, kind: FileKind, row: Row, c: Command) -> bool
    requires { (good_block block ≡ true) × ((row.start + row.capacity / sector_bytes ≤ 2 ^ 40) × (openable row ≡ true)) }
    ensures { result ≡ issuable explicit block kind row c }
{
    let offset = offset_from(row.start, c.address);
    match c.kind {
        CommandKind::Read => issues_it(decision::read_row(row, offset, c.length), c),
        CommandKind::Write => {
            let again = decision::write_row(explicit, block, kind, row, offset, c.length);
            issues_it(again, c)
        }
        CommandKind::Reset => issues_it(decision::truncate_row(kind, row, 0), c),
        CommandKind::Finish => issues_it(decision::truncate_row(kind, row, row.capacity), c),
        CommandKind::Flush => issues_it(decision::flush_row(row), c),
        CommandKind::Open => {
            let again = decision::open_row(explicit, kind, table::with_opens(row, 0));
            issues_it(again, c) & (row.opens == 1)
        }
        CommandKind::Close => {
            let again = decision::close_row(explicit, kind, table::with_opens(row, 1));
            issues_it(again, c) & (row.opens == 0) & types::predicates::is_write(row.access)
        }
    }
}

fn held_on(m: Mount, h: Held, file: Result<Row, Refusal>) -> Result<(Held, Row), Refusal>
    requires { (good_block m.volume.block ≡ true) × (Ends file × Openable file) }
    ensures { result ≡ held_on m h file }
{
    let Ok(row) = file else {
        return Err(Refusal::Impossible);
    };
    if is_issuable(m.volume.explicit, m.volume.block, h.kind, row, h.command) {
        Ok((h, row))
    } else {
        Err(Refusal::Impossible)
    }
}

// Checks 8 and 10 of a file that was found: its row as its words say.
#[tactic(auto, using(checks::proofs::Laws::slot_counted))]
fn slot_pending(
    m: Mount,
    kind: FileKind,
    number: u32,
    slot: Result<Row, Outstanding>,
) -> Result<(Held, Row), Refusal>
    requires { good_block m.volume.block ≡ true }
    ensures { result ≡ pending_by m kind number (sound_slot m kind slot) (outstanding_in slot) }
{
    match table::outstanding_in(slot) {
        Outstanding::Idle => Err(Refusal::NothingOutstanding),
        Outstanding::Busy(command) => {
            let h = Held {
                kind,
                number,
                command,
            };
            let ruled = checks::ruled_slot(m.volume.block, kind, slot);
            held_on(m, h, checks::counted_file(m, kind, ruled))
        }
        Outstanding::Unknown => Err(Refusal::Impossible),
    }
}

// Checks 10 of the counts, 1, 8, and 10 of the row. One row is read.
#[tactic(auto, unfolding(crate::specs::Held::pending_of))]
fn check_pending(
    m: Mount,
    cnv: &[u64],
    seq: &[u64],
    kind: FileKind,
    number: u32,
) -> Result<(Held, Row), Refusal>
    ensures { result ≡ pending_of m cnv.now seq.now kind number }
{
    if !checks::counts_fit(m, cnv.len(), seq.len()) {
        return Err(Refusal::Impossible);
    }
    let Some(slot) = checks::lookup_of(m, cnv, seq, kind, number) else {
        return Err(Refusal::NoFile);
    };
    slot_pending(m, kind, number, slot)
}

// What the checks tell goes with their answer.
#[tactic(auto, using(crate::proofs::Laws::pending_tells))]
pub fn find_pending(
    m: Mount,
    cnv: &[u64],
    seq: &[u64],
    kind: FileKind,
    number: u32,
) -> Result<(Held, Row), Refusal>
    ensures value { result ≡ pending_of m cnv.now seq.now kind number }
    ensures pending_tells { PendingTells m cnv.now seq.now kind number result }
{
    check_pending(m, cnv, seq, kind, number)
}
