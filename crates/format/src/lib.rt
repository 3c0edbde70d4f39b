// The formatter: the super block that is written from given values, and whether zone 0 must first be finished; and the values of a super block,
// as they stand.
#![tactic(auto)]

ghost use Rattle.std.specs.Prelude.{◌≡◌, true, ℕ, ◌-◌, ◌≤◌, ◌<◌, List, ◌++◌, length, replicate};
ghost use Rattle.std.proofs.lemmas.List.Edits.{sets};
ghost use Rattle.wire.specs.Le.{little};
ghost use Rattle.zones.specs.Facts.{Bounded};
ghost use Rattle.superblock.specs.SuperBlock.{super_length, magic, tail_place, label_length, label_at, uuid_length, super_bytes};
ghost use Rattle.format.specs.Format.{must_finish, record_check, filled, format_check, format_outcome, fields_at, fields_read};

use superblock::{LABEL_BYTES, UUID_BYTES};
use types::answers::refuse_if;
use types::{Refusal, units};
use zones::Zone;

// The values of a super block, as they stand in it.
#[derive(Clone, Copy)]
pub struct SuperFields {
    pub label: [u8; LABEL_BYTES],
    pub uuid: [u8; UUID_BYTES],
    pub features: u64,
    pub owner: u32,
    pub group: u32,
    pub mode: u32,
}

// Zone 0 has to be finished: it is sequential and healthy, and less than its capacity is written.
fn must_finish(z: Zone) -> bool
    requires { Bounded z }
    ensures { result ≡ must_finish z }
{
    zones::is_sequential(z)
        && zones::is_healthy(z)
        && zones::written_size(z) < units::bytes_of(z.capacity)
}

// The record of zone 0, checked as a report's first.
#[tactic(auto, unfolding(types::specs::Verdicts::refuse, crate::specs::Format::record_check, report::specs::Report::zones_check), using(zones::proofs::Faults::zone_faultless))]
fn check_record(zone: &[u8], given: bool, unit: u64) -> Result<(), Refusal>
    requires { 0 < unit }
    ensures { result ≡ record_check unit given zone.now }
{
    if zone.len() != zones::ZONE_BYTES {
        return Err(Refusal::BadZone(0, None));
    }
    let fault = zones::zone_fault(zones::zone_at(zone, 0, given), 0, unit);
    refuse_if(!zones::is_faultless(fault), Refusal::BadZone(0, fault))
}

// The checks, in their order. Only a good block has sectors to check the record by.
#[tactic(auto, unfolding(types::specs::Verdicts::refuse, crate::specs::Format::format_check), using(superblock::proofs::Values::values_passed, superblock::proofs::Values::values_refused, types::proofs::Blocks::block_positive))]
fn check(
    block: u64,
    out: &[u8],
    label: &[u8],
    features: u64,
    owner: u32,
    group: u32,
    mode: u32,
    zone: &[u8],
    given: bool,
) -> Result<(), Refusal>
    ensures { (uuid : List ℕ) → result ≡ format_check block out.now (record { label = label.entry.now; uuid = uuid; features = features; owner = owner; group = group; mode = mode }) given zone.now }
{
    if !units::good_block(block) {
        return Err(Refusal::BadBlock);
    }
    refuse_if(out.len() != superblock::SUPER_BYTES, Refusal::SuperLength)?;
    superblock::value_checks(features, owner, group, mode)?;
    refuse_if(label.len() > LABEL_BYTES, Refusal::LabelLength)?;
    check_record(zone, given, units::block_sectors(block))
}

// A label in its field: zeros fill what it leaves.
#[tactic(auto, using(crate::proofs::Bytes::field_filled))]
fn filled(label: &[u8]) -> [u8; LABEL_BYTES]
    requires { length label.now ≤ label_length }
    ensures { result ≡ filled label.now }
{
    let mut field = [0u8; LABEL_BYTES];
    field[..label.len()].copy_from_slice(label);
    field
}

// Puts what stands before the features. The checksum's field is zero until all others are there.
fn put_names(out: &mut [u8], v: &SuperFields)
    requires { length out.old ≡ super_length }
    ensures { out.new ≡ sets out.old 0 (little 4 magic ++ (little 4 0 ++ (v.now.label ++ v.now.uuid))) }
{
    wire::put_number(out, superblock::MAGIC_AT, 4, superblock::MAGIC as u64);
    wire::put_number(out, superblock::CHECKSUM_AT, 4, 0);
    wire::put_bytes(out, superblock::LABEL_AT, &v.label);
    wire::put_bytes(out, superblock::UUID_AT, &v.uuid);
}

// Puts the numbers.
fn put_numbers(out: &mut [u8], v: &SuperFields)
    requires { length out.old ≡ super_length }
    ensures { out.new ≡ sets out.old 88 (little 8 v.now.features ++ (little 4 v.now.owner ++ (little 4 v.now.group ++ little 4 v.now.mode))) }
{
    wire::put_number(out, superblock::FEATURES_AT, 8, v.features);
    wire::put_number(out, superblock::UID_AT, 4, v.owner as u64);
    wire::put_number(out, superblock::GID_AT, 4, v.group as u64);
    wire::put_number(out, superblock::PERM_AT, 4, v.mode as u64);
}

// Puts zeros behind them, as many as there is room for: a count that is no constant is never written out by the check.
fn put_tail(out: &mut [u8])
    requires { length out.old ≡ super_length }
    ensures { out.new ≡ sets out.old tail_place (replicate (length out.old - tail_place) 0) }
{
    let room = out.len() - superblock::TAIL_AT;
    wire::put_zeros(out, superblock::TAIL_AT, room);
}

// Puts the super block. Its checksum comes last, over all that is there then.
fn put_super(out: &mut [u8], v: &SuperFields)
    requires { length out.old ≡ super_length }
    ensures { out.new ≡ super_bytes v.now.label v.now.uuid v.now.features v.now.owner v.now.group v.now.mode }
{
    put_names(out, v);
    put_numbers(out, v);
    put_tail(out);
    let sum = crc32::superblock_checksum(&out[..]);
    wire::put_number(out, superblock::CHECKSUM_AT, 4, sum as u64);
}

// Formats: checks all that is lent, writes the super block, and says whether zone 0 must first be finished. A refusal writes nothing.
#[tactic(auto, unfolding(crate::specs::Format::format_outcome))]
pub fn format(
    block: u64,
    out: &mut [u8],
    label: &[u8],
    uuid: [u8; UUID_BYTES],
    features: u64,
    owner: u32,
    group: u32,
    mode: u32,
    zone: &[u8],
    given: bool,
) -> Result<bool, Refusal>
    ensures { format_outcome block out.old (record { label = label.entry.now; uuid = uuid; features = features; owner = owner; group = group; mode = mode }) given zone.now ≡ record { answer = result; block = out.new } }
{
    check(
        block,
        &out[..],
        label,
        features,
        owner,
        group,
        mode,
        zone,
        given,
    )?;
    let fields = SuperFields {
        label: filled(label),
        uuid,
        features,
        owner,
        group,
        mode,
    };
    put_super(out, &fields);
    Ok(must_finish(zones::zone_at(zone, 0, given)))
}

fn label_of(b: &[u8]) -> [u8; LABEL_BYTES]
    requires { length b.now ≡ super_length }
    ensures { result ≡ label_at b.now }
{
    let mut label = [0u8; LABEL_BYTES];
    wire::put_bytes(
        &mut label[..],
        0,
        &b[superblock::LABEL_AT..superblock::UUID_AT],
    );
    label
}

#[tactic(auto, unfolding(crate::specs::Format::fields_at))]
fn fields_of(b: &[u8]) -> SuperFields
    requires { length b.now ≡ super_length }
    ensures { result ≡ fields_at b.now }
{
    SuperFields {
        label: label_of(b),
        uuid: superblock::uuid_of(b),
        features: wire::u64_at(b, superblock::FEATURES_AT),
        owner: wire::u32_at(b, superblock::UID_AT),
        group: wire::u32_at(b, superblock::GID_AT),
        mode: wire::u32_at(b, superblock::PERM_AT),
    }
}

// The values of a super block that a mount accepts, as they stand in it.
pub fn read_fields(b: &[u8]) -> Result<SuperFields, Refusal>
    ensures { result ≡ fields_read b.now }
{
    superblock::read_superblock(b)?;
    Ok(fields_of(b))
}
