// Check 9: whether the record of a failed command fits its file, and if not, why.
ghost use Rattle.std.specs.Prelude.{◌≡◌, true, ◌+◌, ◌/◌, ◌≤◌, ◌^◌};
ghost use Rattle.types.specs.Blocks.{sector_bytes, good_block};
ghost use Rattle.zones.specs.Facts.{Bounded};
ghost use Rattle.zones.specs.Faults.{first_fault, is_faultless};
ghost use Rattle.recovery.specs.Fits.{matches_sequential, within_conventional, of_file, no_better, file_tests, misfit};
ghost use Rattle.recovery.specs.Facts.{Fitting};

use types::{FileKind, Row, ZoneFault};
use zones::Zone;

#[tactic(auto, unfolding(crate::specs::Fits::matches_sequential))]
fn matches_sequential(row: Row, z: Zone) -> bool
    requires { Bounded z }
    ensures { result ≡ matches_sequential row z }
{
    zones::is_sequential(z)
        & (z.start == row.start)
        & (types::units::bytes_of(z.capacity) == row.capacity)
}

#[tactic(auto, unfolding(crate::specs::Fits::within_conventional))]
fn within_conventional(row: Row, z: Zone) -> bool
    requires { Bounded z × (row.start + row.capacity / sector_bytes ≤ 2 ^ 40) }
    ensures { result ≡ within_conventional row z }
{
    let zone_end = types::units::bytes_of(z.start + z.length);
    let file_end = types::units::bytes_of(row.start) + row.capacity;
    zones::is_conventional(z) & (row.start <= z.start) & (zone_end <= file_end)
}

fn is_of_file(kind: FileKind, row: Row, z: Zone) -> bool
    requires { Bounded z × (row.start + row.capacity / sector_bytes ≤ 2 ^ 40) }
    ensures { result ≡ of_file kind row z }
{
    match kind {
        FileKind::Conventional => within_conventional(row, z),
        FileKind::Sequential => matches_sequential(row, z),
    }
}

fn is_no_better(kind: FileKind, row: Row, z: Zone) -> bool
    ensures { result ≡ no_better kind row z }
{
    match kind {
        FileKind::Conventional => true,
        FileKind::Sequential => u64::from(row.condition) <= u64::from(zones::condition_of(z)),
    }
}

// What is wrong with a good record as that of this file's zone.
#[tactic(auto, unfolding(zones::specs::Faults::first_fault, zones::specs::Faults::fault_unless))]
fn file_fault(kind: FileKind, row: Row, z: Zone) -> Option<ZoneFault>
    requires { Bounded z × (row.start + row.capacity / sector_bytes ≤ 2 ^ 40) }
    ensures { result ≡ first_fault (file_tests kind row z) }
{
    if !is_of_file(kind, row, z) {
        return Some(ZoneFault::OtherZone);
    }
    if !is_no_better(kind, row, z) {
        return Some(ZoneFault::BetterCondition);
    }
    None
}

// Why the record doesn't fit its file, if it doesn't. Only a good record is compared with the file: the sums of any other could wrap.
#[tactic(auto, using(types::proofs::Blocks::block_positive, crate::proofs::Laws::faultless_bounded, crate::proofs::Laws::own_fault, crate::proofs::Laws::own_passed, crate::proofs::Laws::own_fitting))]
pub fn misfit(block: u64, kind: FileKind, row: Row, z: Zone) -> Option<ZoneFault>
    requires { (good_block block ≡ true) × (row.start + row.capacity / sector_bytes ≤ 2 ^ 40) }
    ensures value { result ≡ misfit block kind row z }
    ensures fitting { is_faultless result ≡ true → Fitting kind z }
{
    let own = zones::record_fault(z, types::units::block_sectors(block));
    if zones::is_faultless(own) {
        file_fault(kind, row, z)
    } else {
        own
    }
}
