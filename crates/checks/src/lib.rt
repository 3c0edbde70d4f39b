// The checks that all calls share, in their order: 10 of the counts, 1, and 10 of the row.
#![tactic(auto)]

ghost use Rattle.std.specs.Prelude.{◌≡◌, true, ◌≤◌, length};
ghost use Rattle.types.specs.Blocks.{good_block};
ghost use Rattle.table.specs.Rows.{rows_lent};
ghost use Rattle.account.specs.Facts.{Room};
ghost use Rattle.checks.specs.Checks.{files_fit, counts_fit, no_kind, row_in, lookup_of, placed, sized, allowed, full, openable, sound_row, sound_slot};
ghost use Rattle.checks.specs.Facts.{ruled_slot, counted_file, Ends, Openable};

use types::{Access, Condition, FileKind, Mount, Outstanding, Refusal, Row, predicates, units};

fn files_fit(files: u32, words: usize) -> bool
    ensures { result ≡ files_fit files words }
{
    (files as usize <= table::rows_lent(words)) & (files <= units::MOST_FILES)
}

// Check 10, of the counts: no more files of either kind than rows lent or than any mount has, a block that is one, and an account of no more
// files than there are.
#[tactic(auto, unfolding(crate::specs::Checks::counts_fit), using(crate::proofs::Laws::counts_good, crate::proofs::Laws::counts_room))]
pub fn counts_fit(m: Mount, cnv: usize, seq: usize) -> bool
    ensures value { result ≡ counts_fit m cnv seq }
    ensures block_value { result ≡ true → (good_block m.volume.block ≡ true) × Room m.account }
{
    files_fit(m.volume.conventional, cnv)
        & files_fit(m.volume.sequential, seq)
        & units::good_block(m.volume.block)
        & account::account_fits(m.volume, m.account)
}

// The refusal of a number that is no kind: no file has one.
pub fn no_kind(m: Mount, cnv: usize, seq: usize) -> Refusal
    ensures { result ≡ no_kind m cnv seq }
{
    if counts_fit(m, cnv, seq) {
        Refusal::NoFile
    } else {
        Refusal::Impossible
    }
}

fn row_in(t: &[u64], files: u32, number: u32) -> Option<Result<Row, Outstanding>>
    requires { files ≤ rows_lent (length t.now) }
    ensures { result ≡ row_in t.now files number }
{
    if number < files {
        Some(table::row_at(t, number as usize))
    } else {
        None
    }
}

// Check 1: the file of a number among those of its kind. One row is read, however many there are.
#[tactic(auto, unfolding(crate::specs::Checks::lookup_of))]
pub fn lookup_of(
    m: Mount,
    cnv: &[u64],
    seq: &[u64],
    kind: FileKind,
    number: u32,
) -> Option<Result<Row, Outstanding>>
    requires { counts_fit m (length cnv.now) (length seq.now) ≡ true }
    ensures { result ≡ lookup_of m.volume cnv.now seq.now kind number }
{
    match kind {
        FileKind::Conventional => row_in(cnv, m.volume.conventional, number),
        FileKind::Sequential => row_in(seq, m.volume.sequential, number),
    }
}

fn is_placed(block: u64, start: u64, capacity: u64) -> bool
    requires { good_block block ≡ true }
    ensures { result ≡ placed block start capacity }
{
    let starts = (0 < start) & units::sectors_on_block(block, start);
    let whole = (0 < capacity) & units::on_block(block, capacity);
    starts & whole & units::ends_in_reach(start, capacity / units::SECTOR_BYTES)
}

fn is_sized(block: u64, capacity: u64, size: u64) -> bool
    requires { good_block block ≡ true }
    ensures { result ≡ sized block capacity size }
{
    units::on_block(block, size) & (size <= capacity)
}

fn is_allowed(c: Condition, a: Access, size: u64) -> bool
    ensures { result ≡ allowed c a size }
{
    match a {
        Access::Nothing => size == 0,
        Access::Read => !predicates::is_offline(c),
        Access::Write => !predicates::is_offline(c) & !predicates::is_readonly(c),
    }
}

fn is_full(k: FileKind, a: Access, size: u64, capacity: u64) -> bool
    ensures { result ≡ full k a size capacity }
{
    match k {
        FileKind::Conventional => predicates::is_none(a) | (size == capacity),
        FileKind::Sequential => true,
    }
}

fn is_openable(row: Row) -> bool
    ensures { result ≡ openable row }
{
    !account::is_open(row) | predicates::is_write(row.access)
}

#[tactic(auto, unfolding(crate::specs::Checks::sound_row))]
fn sound_row(block: u64, kind: FileKind, row: Row) -> bool
    requires { good_block block ≡ true }
    ensures { result ≡ sound_row block kind row }
{
    is_placed(block, row.start, row.capacity)
        & is_sized(block, row.capacity, row.size)
        & is_allowed(row.condition, row.access, row.size)
        & is_full(kind, row.access, row.size, row.capacity)
        & is_openable(row)
}

// Check 10, of the row of a file that was found, by the row's own rules.
#[tactic(auto, using(crate::proofs::Laws::sound_ends, crate::proofs::Laws::sound_openable))]
pub fn ruled_slot(
    block: u64,
    kind: FileKind,
    slot: Result<Row, Outstanding>,
) -> Result<Row, Refusal>
    requires { good_block block ≡ true }
    ensures value { result ≡ ruled_slot block kind slot }
    ensures ends { Ends result }
    ensures openable { Openable result }
{
    let Ok(row) = slot else {
        return Err(Refusal::Impossible);
    };
    if sound_row(block, kind, row) {
        Ok(row)
    } else {
        Err(Refusal::Impossible)
    }
}

// The same check beside the account, of a row that passed it. Apart from `ruled_slot`, as both in one function would be a call of its own, which copies
// the mount and the row.
pub fn counted_file(m: Mount, kind: FileKind, file: Result<Row, Refusal>) -> Result<Row, Refusal>
    ensures value { result ≡ counted_file m kind file }
    ensures ends { Ends file → Ends result }
    ensures openable { Openable file → Openable result }
{
    let row = file?;
    if account::is_counted(m, kind, row) {
        Ok(row)
    } else {
        Err(Refusal::Impossible)
    }
}

// Both, where no pace hangs on it.
#[tactic(auto, using(crate::proofs::Laws::slot_counted))]
pub fn sound_slot(m: Mount, kind: FileKind, slot: Result<Row, Outstanding>) -> Result<Row, Refusal>
    requires { good_block m.volume.block ≡ true }
    ensures { result ≡ sound_slot m kind slot }
{
    counted_file(m, kind, ruled_slot(m.volume.block, kind, slot))
}
