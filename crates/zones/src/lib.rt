// A zone record: decoded by value, what it says of its zone, and which test of good input it fails first.
#![tactic(auto)]

ghost use Rattle.std.specs.Prelude.{◌≡◌, true, cond, ◌+◌, ◌≤◌, ◌<◌, length};
ghost use Rattle.types.specs.Blocks.{on_block, whole_blocks};
ghost use Rattle.zones.specs.Zone.{zone_bytes, zone_at, conventional, sequential, condition_of, healthy, full, written_size, says_size, starts_at, good_length, good_capacity, good_end, good_type, conventional_condition, sequential_condition, good_condition, pointed, points_well, good_pointer};
ghost use Rattle.zones.specs.Faults.{fault_unless, record_fault, zone_fault, is_faultless};
ghost use Rattle.zones.specs.Facts.{Bounded};

use types::units::{LARGE_BLOCK, SECTOR_BYTES};
use types::{Condition, ZoneFault};

// A zone record. Start, length, write pointer and capacity in sectors of 512 bytes; type and condition are the record's bytes.
// Type and condition stay bytes: `zone_at` of the specs gives any, and the tests of both are made on any.
#[derive(Clone, Copy)]
pub struct Zone {
    pub start: u64,
    pub length: u64,
    pub pointer: u64,
    pub kind: u8,
    pub condition: u8,
    pub capacity: u64,
}

// A record's bytes, and where its fields stand.
pub const ZONE_BYTES: usize = 64;

const LENGTH_AT: usize = 8;

const POINTER_AT: usize = 16;

const TYPE_AT: usize = 24;

const CONDITION_AT: usize = 25;

const CAPACITY_AT: usize = 32;

// The types of a zone: a sequential one may be required or preferred.
const CONVENTIONAL: u8 = 1;

const SEQUENTIAL_REQUIRED: u8 = 2;

const SEQUENTIAL_PREFERRED: u8 = 3;

// The conditions of a zone. A conventional one has no pointer; at those from empty to closed a sequential one's tells how far it is written.
const NO_POINTER: u8 = 0;

const EMPTY: u8 = 1;

const CLOSED: u8 = 4;

const READ_ONLY: u8 = 13;

const FULL: u8 = 14;

const OFFLINE: u8 = 15;

// The large block in sectors.
const LARGE_UNIT: u64 = LARGE_BLOCK / SECTOR_BYTES;

// The flag stays beside the value: one `if` is as plain as an option that is made to be taken apart.
fn capacity_of(given: bool, stated: u64, length: u64) -> u64
    ensures { result ≡ cond given stated length }
{
    if given { stated } else { length }
}

// The zone whose record stands at `at`; its capacity is its length unless capacities are given.
pub fn zone_at(b: &[u8], at: usize, given: bool) -> Zone
    requires { at + zone_bytes ≤ length b.now }
    ensures { result ≡ zone_at given b.now at }
{
    let length = wire::u64_at(b, at + LENGTH_AT);
    let stated = wire::u64_at(b, at + CAPACITY_AT);
    Zone {
        start: wire::u64_at(b, at),
        length,
        pointer: wire::u64_at(b, at + POINTER_AT),
        kind: wire::u8_at(b, at + TYPE_AT),
        condition: wire::u8_at(b, at + CONDITION_AT),
        capacity: capacity_of(given, stated, length),
    }
}

pub fn is_conventional(z: Zone) -> bool
    ensures { result ≡ conventional z }
{
    z.kind == CONVENTIONAL
}

pub fn is_sequential(z: Zone) -> bool
    ensures { result ≡ sequential z }
{
    (z.kind == SEQUENTIAL_REQUIRED) | (z.kind == SEQUENTIAL_PREFERRED)
}

pub fn condition_of(z: Zone) -> Condition
    ensures { result ≡ condition_of z }
{
    match z.condition {
        READ_ONLY => Condition::ReadOnly,
        OFFLINE => Condition::Offline,
        _ => Condition::Healthy,
    }
}

pub fn is_healthy(z: Zone) -> bool
    ensures { result ≡ healthy z }
{
    condition_of(z) == Condition::Healthy
}

fn is_full(z: Zone) -> bool
    ensures { result ≡ full z }
{
    z.condition == FULL
}

// How many bytes of a healthy sequential zone are written: those below its pointer, and all of a full one, whose pointer means nothing.
pub fn written_size(z: Zone) -> u64
    requires { Bounded z × (says_size z ≡ true) }
    ensures { result ≡ written_size z }
{
    if is_full(z) {
        types::units::bytes_of(z.capacity)
    } else {
        types::units::bytes_of(z.pointer - z.start)
    }
}

// On a block of so many sectors. With the large block written out, its numbers aren't divided by one that only the run knows.
// It stays beside `types::units::on_block`: a record is tested by any unit above 0 (`record_fault` of the specs).
fn on_unit(n: u64, unit: u64) -> bool
    requires { 0 < unit }
    ensures { result ≡ on_block unit n }
{
    if unit == LARGE_UNIT {
        n % LARGE_UNIT == 0
    } else {
        n % unit == 0
    }
}

fn whole_blocks(n: u64, unit: u64) -> bool
    requires { 0 < unit }
    ensures { result ≡ whole_blocks unit n }
{
    (0 < n) & on_unit(n, unit)
}

fn starts_at(z: Zone, expected: u64) -> bool
    ensures { result ≡ starts_at expected z }
{
    z.start == expected
}

fn good_length(z: Zone, unit: u64) -> bool
    requires { 0 < unit }
    ensures { result ≡ good_length unit z }
{
    whole_blocks(z.length, unit)
}

fn good_capacity(z: Zone, unit: u64) -> bool
    requires { 0 < unit }
    ensures { result ≡ good_capacity unit z }
{
    whole_blocks(z.capacity, unit)
        & (z.capacity <= z.length)
        & (!is_conventional(z) | (z.capacity == z.length))
}

fn good_end(z: Zone) -> bool
    ensures { result ≡ good_end z }
{
    types::units::ends_in_reach(z.start, z.length)
}

fn good_type(z: Zone) -> bool
    ensures { result ≡ good_type z }
{
    is_conventional(z) | is_sequential(z)
}

fn conventional_condition(c: u8) -> bool
    ensures { result ≡ conventional_condition c }
{
    matches!(c, NO_POINTER | READ_ONLY | OFFLINE)
}

fn sequential_condition(c: u8) -> bool
    ensures { result ≡ sequential_condition c }
{
    matches!(c, EMPTY..=CLOSED | READ_ONLY | FULL | OFFLINE)
}

fn good_condition(z: Zone) -> bool
    ensures { result ≡ good_condition z }
{
    if is_conventional(z) {
        conventional_condition(z.condition)
    } else {
        sequential_condition(z.condition)
    }
}

// The pointer of a healthy sequential zone that isn't full is looked at, and no other.
fn is_pointed(z: Zone) -> bool
    ensures { result ≡ pointed z }
{
    is_sequential(z) & is_healthy(z) & !is_full(z)
}

// Compared by its distance from the start, so that no sum wraps.
fn points_well(z: Zone, unit: u64) -> bool
    requires { 0 < unit }
    ensures { result ≡ points_well unit z }
{
    if z.start <= z.pointer {
        (z.pointer - z.start <= z.capacity) & on_unit(z.pointer, unit)
    } else {
        false
    }
}

fn good_pointer(z: Zone, unit: u64) -> bool
    requires { 0 < unit }
    ensures { result ≡ good_pointer unit z }
{
    !is_pointed(z) | points_well(z, unit)
}

// One test: what the rest finds where it is passed, else its fault.
#[tactic(auto, unfolding(crate::specs::Faults::fault_unless))]
pub fn fault_unless(passed: bool, fault: ZoneFault, rest: Option<ZoneFault>) -> Option<ZoneFault>
    ensures { result ≡ fault_unless passed fault rest }
{
    if passed { rest } else { Some(fault) }
}

// The first fault of a record, wherever its zone starts. `unit` is the block in sectors.
#[tactic(auto, unfolding(crate::specs::Faults::record_fault, crate::specs::Faults::first_fault, crate::specs::Faults::fault_unless))]
pub fn record_fault(z: Zone, unit: u64) -> Option<ZoneFault>
    requires { 0 < unit }
    ensures { result ≡ record_fault unit z }
{
    if !good_length(z, unit) {
        return Some(ZoneFault::Length);
    }
    if !good_capacity(z, unit) {
        return Some(ZoneFault::Capacity);
    }
    if !good_end(z) {
        return Some(ZoneFault::End);
    }
    if !good_type(z) {
        return Some(ZoneFault::Type);
    }
    if !good_condition(z) {
        return Some(ZoneFault::Condition);
    }
    if !good_pointer(z, unit) {
        return Some(ZoneFault::Pointer);
    }
    None
}

// The first fault of a zone of a report, where the one before it ended at `expected`.
#[tactic(auto, unfolding(crate::specs::Faults::zone_fault, crate::specs::Faults::record_fault, crate::specs::Faults::first_fault, crate::specs::Faults::fault_unless))]
pub fn zone_fault(z: Zone, expected: u64, unit: u64) -> Option<ZoneFault>
    requires { 0 < unit }
    ensures { result ≡ zone_fault unit expected z }
{
    if !starts_at(z, expected) {
        return Some(ZoneFault::Start);
    }
    record_fault(z, unit)
}

pub fn is_faultless(fault: Option<ZoneFault>) -> bool
    ensures { result ≡ is_faultless fault }
{
    fault.is_none()
}
