// What a completion makes of its file's row, by the command, the row and the disk's record alone. The mount value and the tables are for
// the layer above.
#![tactic(auto)]

pub mod fits; // check 9: when the record of a failed command fits its file
pub mod grid; // the recovery table
pub mod success; // the row after a command that was done well

ghost use Rattle.std.specs.Prelude.{◌≡◌, true};
ghost use Rattle.zones.specs.Zone.{healthy};
ghost use Rattle.recovery.specs.declared.grid.SizeRule.TheVariants as rules;
ghost use Rattle.recovery.specs.Recovery.{fixed_size, unharmed, nothing_lost, ruled_size, read_at_most, ruled_access, recovered_row, kept_open};
ghost use Rattle.recovery.specs.Facts.{Fitting, Sizing};

use grid::{AccessRule, SizeRule};
use types::{Access, CommandKind, ErrorPolicy, FileKind, Row};
use zones::Zone;

fn fixed_size(kind: FileKind, z: Zone, size: u64) -> u64
    requires { Sizing kind z }
    ensures { result ≡ fixed_size kind z size }
{
    match kind {
        FileKind::Conventional => size,
        FileKind::Sequential => zones::written_size(z),
    }
}

// A healthy record that says the size that the file has. Any other record says none.
fn is_unharmed(kind: FileKind, z: Zone, size: u64) -> bool
    requires { Fitting kind z }
    ensures { result ≡ unharmed kind z size }
{
    zones::is_healthy(z) && (size == fixed_size(kind, z, size))
}

// A failed read that has nothing to recover.
pub fn nothing_lost(kind: FileKind, failed: CommandKind, z: Zone, size: u64) -> bool
    requires { Fitting kind z }
    ensures { result ≡ nothing_lost kind failed z size }
{
    types::commands::is_read(failed) & is_unharmed(kind, z, size)
}

fn ruled_size(rule: SizeRule, kind: FileKind, z: Zone, size: u64) -> u64
    requires { Fitting kind z × (rule ≡ rules.Fixed → healthy z ≡ true) }
    ensures { result ≡ ruled_size rule kind z size }
{
    match rule {
        SizeRule::Fixed => fixed_size(kind, z, size),
        SizeRule::AsIs => size,
        SizeRule::Zero => 0,
    }
}

fn read_at_most(access: Access) -> Access
    ensures { result ≡ read_at_most access }
{
    match access {
        Access::Nothing => Access::Nothing,
        Access::Read | Access::Write => Access::Read,
    }
}

fn ruled_access(rule: AccessRule, access: Access) -> Access
    ensures { result ≡ ruled_access rule access }
{
    match rule {
        AccessRule::Unchanged => access,
        AccessRule::Read => read_at_most(access),
        AccessRule::Nothing => Access::Nothing,
    }
}

#[tactic(auto, unfolding(crate::specs::Recovery::recovered_row), using(crate::proofs::Laws::fixed_healthy))]
pub fn recovered_row(policy: ErrorPolicy, kind: FileKind, z: Zone, row: Row) -> Row
    requires { Fitting kind z }
    ensures { result ≡ recovered_row policy kind z row }
{
    let condition = zones::condition_of(z);
    let rule = grid::rule_of(grid::recovery_grid(), policy, condition);
    let size = ruled_size(rule.size, kind, z, row.size);
    let access = ruled_access(rule.access, row.access);
    table::recovered_to(row, size, condition, access)
}

// The row after a failed command: without opens where the command was an open, or where write access is lost.
pub fn kept_open(failed: CommandKind, row: Row) -> Row
    ensures { result ≡ kept_open failed row }
{
    if types::commands::is_opening(failed) | !types::predicates::is_write(row.access) {
        table::with_opens(row, 0)
    } else {
        row
    }
}
