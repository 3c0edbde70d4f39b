// The account of sequential files that are open for writing and of those that are active: which files these are, their limits, and what a
// changed row does to the counts.
#![tactic(auto)]

ghost use Rattle.std.specs.Prelude.{◌≡◌, ◌-◌, ◌≤◌, length};
ghost use Rattle.types.specs.Blocks.{most_files};
ghost use Rattle.types.specs.Codes.{flag_code};
ghost use Rattle.table.specs.Rows.{rows_lent};
ghost use Rattle.account.specs.Account.{is_open, is_full, is_empty, is_active, count_after, corrected, accounted, exceeds, limit_check, account_fits, counted};
ghost use Rattle.account.specs.Counts.{passes, count_in};
ghost use Rattle.account.specs.Facts.{Room};

use types::answers::refuse_if;
use types::{Account, FileKind, Mount, Outstanding, Refusal, Row, Volume, predicates};

// The file is open for writing.
pub fn is_open(row: Row) -> bool
    ensures { result ≡ is_open row }
{
    0 < row.opens
}

pub fn is_full(row: Row) -> bool
    ensures { result ≡ is_full row }
{
    row.capacity <= row.size
}

pub fn is_empty(row: Row) -> bool
    ensures { result ≡ is_empty row }
{
    row.size == 0
}

// The file is active. `explicit` is the option `explicit-open`.
#[tactic(auto, unfolding(crate::specs::Account::is_active))]
pub fn is_active(explicit: bool, row: Row) -> bool
    ensures { result ≡ is_active explicit row }
{
    predicates::is_healthy(row.condition)
        & predicates::is_write(row.access)
        & !is_full(row)
        & (explicit & is_open(row) | !is_empty(row))
}

// One file less.
fn one_less(count: u32) -> u32
    ensures { result ≡ count - 1 }
{
    count.saturating_sub(1)
}

// A count, once a file that it counted or didn't is one that it counts or doesn't.
// It stays by both flags: of a count of 0 one less is 0 (`count_after` of the specs), so they can't be summed.
fn count_after(count: u32, before: bool, after: bool) -> u32
    requires { count ≤ most_files }
    ensures { result ≡ count_after count before after }
{
    if before {
        if after { count } else { one_less(count) }
    } else {
        if after { count + 1 } else { count }
    }
}

// The account, once the row of a sequential file has changed.
#[tactic(auto, unfolding(crate::specs::Account::corrected))]
fn corrected(explicit: bool, account: Account, before: Row, after: Row) -> Account
    requires { Room account }
    ensures { result ≡ corrected explicit account before after }
{
    Account {
        opened: count_after(account.opened, is_open(before), is_open(after)),
        active: count_after(
            account.active,
            is_active(explicit, before),
            is_active(explicit, after),
        ),
        ..account
    }
}

// The mount, once the row of a file has changed.
pub fn accounted(m: Mount, kind: FileKind, before: Row, after: Row) -> Mount
    requires { Room m.account }
    ensures { result ≡ accounted m kind before after }
{
    match kind {
        FileKind::Conventional => m,
        FileKind::Sequential => {
            let changed = corrected(m.volume.explicit, m.account, before, after);
            types::mounts::with_account(m, changed)
        }
    }
}

// One more would be above the limit, if there is one.
// A limit stays a number that is 0 for none: `exceeds` of the specs and the words of C say so.
fn exceeds(count: u32, limit: u32) -> bool
    ensures { result ≡ exceeds count limit }
{
    (0 < limit) & (limit <= count)
}

// Checks 11 and 12 of an open that changes a row so.
#[tactic(auto, unfolding(types::specs::Verdicts::refuse, crate::specs::Account::limit_check))]
pub fn limit_check(explicit: bool, account: Account, before: Row, after: Row) -> Result<(), Refusal>
    ensures { result ≡ limit_check explicit account before after }
{
    let opens = !is_open(before) & is_open(after);
    let activates = !is_active(explicit, before) & is_active(explicit, after);
    let open = exceeds(account.opened, account.open_limit);
    let active = exceeds(account.active, account.active_limit);
    refuse_if(explicit & (opens & open), Refusal::OpenLimit)?;
    refuse_if(explicit & (activates & active), Refusal::ActiveLimit)
}

// Check 10, of an account beside the number of sequential files.
#[tactic(auto, unfolding(crate::specs::Account::account_fits))]
pub fn account_fits(v: Volume, account: Account) -> bool
    ensures { result ≡ account_fits v account }
{
    (account.opened <= v.sequential) & (account.active <= v.sequential)
}

// Check 10, of a named row beside the account: neither count is 0 where the row counts in it.
#[tactic(auto, unfolding(crate::specs::Account::counted))]
pub fn is_counted(m: Mount, kind: FileKind, row: Row) -> bool
    ensures { result ≡ counted m kind row }
{
    match kind {
        FileKind::Conventional => true,
        FileKind::Sequential => {
            (!is_open(row) | (0 < m.account.opened))
                & (!is_active(m.volume.explicit, row) | (0 < m.account.active))
        }
    }
}

// 1 for an active one.
fn active_flag(explicit: bool, slot: Result<Row, Outstanding>) -> u32
    ensures value { result ≡ flag_code (passes (is_active explicit) slot) }
    ensures upper_bound { result ≤ 1 }
{
    u32::from(slot.is_ok_and(|row| is_active(explicit, row)))
}

// How many of the first rows of a table are active.
pub fn count_active(explicit: bool, t: &[u64], files: u32) -> u32
    requires { (files ≤ most_files) × (files ≤ rows_lent (length t.now)) }
    ensures { result ≡ count_in (is_active explicit) t.now files }
{
    let mut count = 0;
    for i in 0..files {
        count += active_flag(explicit, table::row_at(t, i as usize));
    }
    count
}
