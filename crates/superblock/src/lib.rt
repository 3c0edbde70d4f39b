// The super block: its checks, and what its fields give.
#![tactic(auto)]

ghost use Rattle.std.specs.Prelude.{◌≡◌, ◌<◌, ◌≤◌, length, drop};
ghost use Rattle.superblock.specs.SuperBlock.{uuid_at, tail_place, bit, has_perm, wrong_magic, wrong_checksum, unknown_features, no_owner, wrong_perm, values_check, nonzero, id_of, mode_of, fields_of, fields_check, super_read, found_in, fields_in};

use types::Refusal;
use types::answers::{and_then, refuse_if};

// The bytes of a super block, and where its fields stand.
pub const SUPER_BYTES: usize = 4096;

pub const MAGIC_AT: usize = 0;

pub const CHECKSUM_AT: usize = 4;

pub const LABEL_AT: usize = 8;

pub const LABEL_BYTES: usize = 64;

pub const UUID_AT: usize = 72;

pub const UUID_BYTES: usize = 16;

pub const FEATURES_AT: usize = 88;

pub const UID_AT: usize = 96;

pub const GID_AT: usize = 100;

pub const PERM_AT: usize = 104;

pub const TAIL_AT: usize = 108;

pub const MAGIC: u32 = 0x5A4F_4653;

// The feature bits, and the first number with a bit beyond them.
const AGGREGATE: u64 = 0;

const HAS_UID: u64 = 1;

const HAS_GID: u64 = 2;

const HAS_PERM: u64 = 3;

const BEYOND_FEATURES: u64 = 16;

// An id that is nobody's.
const NOBODY: u32 = 0xFFFF_FFFF;

// The highest perm that is a mode, and the mode without one.
const HIGHEST_MODE: u32 = 0o777;

const DEFAULT_MODE: u32 = 0o640;

// What a good super block gives: whether conventional zones are aggregated, whose files they are, with which mode, and the
// file system's uuid.
#[derive(Clone, Copy)]
pub struct SuperBlock {
    pub aggregate: bool,
    pub owner: u32,
    pub group: u32,
    pub mode: u32,
    pub uuid: [u8; UUID_BYTES],
}

// The fields of a refused super block.
const NO_FIELDS: SuperBlock = SuperBlock {
    aggregate: false,
    owner: 0,
    group: 0,
    mode: 0,
    uuid: [0; UUID_BYTES],
};

// Bit k of the features is set.
// The features stay a number of bits: a shift says which, and nothing else is done with them.
fn has(features: u64, k: u64) -> bool
    requires { k < 64 }
    ensures { result ≡ bit features k }
{
    (features >> k) % 2 == 1
}

fn wrong_magic(b: &[u8]) -> bool
    requires { tail_place ≤ length b.now }
    ensures { result ≡ wrong_magic b.now }
{
    wire::u32_at(b, MAGIC_AT) != MAGIC
}

fn wrong_checksum(b: &[u8]) -> bool
    requires { tail_place ≤ length b.now }
    ensures { result ≡ wrong_checksum b.now }
{
    wire::u32_at(b, CHECKSUM_AT) != crc32::superblock_checksum(b)
}

fn unknown_features(features: u64) -> bool
    ensures { result ≡ unknown_features features }
{
    features >= BEYOND_FEATURES
}

// A uid or gid is in use and names nobody.
fn no_owner(features: u64, uid: u32, gid: u32) -> bool
    ensures { result ≡ no_owner features uid gid }
{
    (has(features, HAS_UID) & (uid == NOBODY)) | (has(features, HAS_GID) & (gid == NOBODY))
}

// A perm is in use and has bits beyond those of a mode.
fn wrong_perm(features: u64, perm: u32) -> bool
    ensures { result ≡ wrong_perm (has_perm features) perm }
{
    has(features, HAS_PERM) & (perm > HIGHEST_MODE)
}

// The checks of the values that a formatter is given too. `?` goes on to the next where they are passed.
#[tactic(auto, unfolding(types::specs::Verdicts::refuse))]
pub fn value_checks(features: u64, uid: u32, gid: u32, perm: u32) -> Result<(), Refusal>
    ensures { result ≡ values_check features uid gid perm (Ok tt) }
{
    refuse_if(unknown_features(features), Refusal::SuperFeatures)?;
    refuse_if(no_owner(features, uid, gid), Refusal::SuperOwner)?;
    refuse_if(wrong_perm(features, perm), Refusal::SuperPerm)
}

// The same before what the rest finds: what they refuse, else that.
#[tactic(auto, using(crate::proofs::Values::values_then))]
pub fn check_values(
    features: u64,
    uid: u32,
    gid: u32,
    perm: u32,
    rest: Result<(), Refusal>,
) -> Result<(), Refusal>
    ensures { result ≡ values_check features uid gid perm rest }
{
    and_then(value_checks(features, uid, gid, perm), rest)
}

// A byte from `from` on isn't zero.
fn nonzero_from(b: &[u8], from: usize) -> bool
    ensures { result ≡ nonzero (drop from b.now) }
{
    b.iter().skip(from).any(|&x| x != 0)
}

// The flag stays beside the value here and in `mode_of`: one `if` is as plain as an option that is made to be taken apart.
fn id_of(used: bool, id: u32) -> u32
    ensures { result ≡ id_of used id }
{
    if used { id } else { 0 }
}

fn mode_of(used: bool, perm: u32) -> u32
    ensures { result ≡ mode_of used perm }
{
    if used { perm } else { DEFAULT_MODE }
}

pub fn uuid_of(b: &[u8]) -> [u8; UUID_BYTES]
    requires { tail_place ≤ length b.now }
    ensures { result ≡ uuid_at b.now }
{
    let mut uuid = [0u8; UUID_BYTES];
    uuid.copy_from_slice(&b[UUID_AT..FEATURES_AT]);
    uuid
}

#[tactic(auto, unfolding(crate::specs::SuperBlock::fields_of))]
fn fields_of(b: &[u8]) -> SuperBlock
    requires { tail_place ≤ length b.now }
    ensures { result ≡ fields_of b.now }
{
    let features = wire::u64_at(b, FEATURES_AT);
    SuperBlock {
        aggregate: has(features, AGGREGATE),
        owner: id_of(has(features, HAS_UID), wire::u32_at(b, UID_AT)),
        group: id_of(has(features, HAS_GID), wire::u32_at(b, GID_AT)),
        mode: mode_of(has(features, HAS_PERM), wire::u32_at(b, PERM_AT)),
        uuid: uuid_of(b),
    }
}

// The checks of the fields.
#[tactic(auto, unfolding(types::specs::Verdicts::refuse), using(crate::proofs::Values::values_passed, crate::proofs::Values::values_refused))]
fn check_fields(b: &[u8]) -> Result<(), Refusal>
    requires { tail_place ≤ length b.now }
    ensures { result ≡ fields_check b.now }
{
    refuse_if(wrong_magic(b), Refusal::SuperMagic)?;
    refuse_if(wrong_checksum(b), Refusal::SuperChecksum)?;
    value_checks(
        wire::u64_at(b, FEATURES_AT),
        wire::u32_at(b, UID_AT),
        wire::u32_at(b, GID_AT),
        wire::u32_at(b, PERM_AT),
    )?;
    refuse_if(nonzero_from(b, TAIL_AT), Refusal::SuperTail)
}

// What the super block in `b` gives, checked in the order of the refusals' numbers, with 33 between 25 and 26.
#[tactic(auto, unfolding(types::specs::Verdicts::refuse, crate::specs::SuperBlock::super_check, crate::specs::SuperBlock::super_read))]
pub fn read_superblock(b: &[u8]) -> Result<SuperBlock, Refusal>
    ensures { result ≡ super_read b.now }
{
    refuse_if(b.len() != SUPER_BYTES, Refusal::SuperLength)?;
    check_fields(b)?;
    Ok(fields_of(b))
}

// What was found of a super block, without what it gives.
pub fn found_in(read: Result<SuperBlock, Refusal>) -> Result<(), Refusal>
    ensures { result ≡ found_in read }
{
    read.and(Ok(()))
}

// Its fields. Of a refused one none are used, and all are zero.
pub fn fields_in(read: Result<SuperBlock, Refusal>) -> SuperBlock
    ensures { result ≡ fields_in read }
{
    read.unwrap_or(NO_FIELDS)
}
