// The bytes of a report as they arrive, cut anywhere: whole zones are taken where they stand in a piece, and what is cut is collected until it is whole.
#![tactic(auto)]

ghost use Rattle.std.specs.Prelude.{◌≡◌, true, false, cond, ◌≤◌, ◌<◌, ◌+◌, min, ltb, length, take, drop};
ghost use Rattle.zones.specs.Zone.{zone_bytes};
ghost use Rattle.intake.specs.Facts.{BoundedIntake};
ghost use Rattle.receiving.specs.Bytes.{unit_bytes, complete, unit_taken, wholly, extra_byte, between, fed};
ghost use Rattle.receiving.specs.Facts.{BoundedReceived, goes_on, JustTaken};

use intake::{Intake, Rule};
use types::Refusal;

// What has been received of a report: what was taken of it, and the bytes that are there of the next header or zone.
// The bytes stay beside their number: the words of C hold all 64 (`part_from` of the specs).
#[derive(Clone, Copy)]
pub struct Received {
    pub intake: Intake,
    pub part: [u8; 64],
    pub held: usize,
}

// What was taken of some bytes, and how many of them were used.
// It stays beside `Whole`: two pairs with names, of which other facts are told.
#[derive(Clone, Copy)]
struct Progress {
    received: Received,
    used: usize,
}

// What was taken of some bytes, up to `at`.
#[derive(Clone, Copy)]
struct Whole {
    intake: Intake,
    at: usize,
}

// The bytes of the next header or zone.
pub fn unit_bytes(intake: Intake) -> usize
    ensures { result ≡ unit_bytes intake }
{
    if intake.count == 0 {
        report::HEADER_BYTES
    } else {
        zones::ZONE_BYTES
    }
}

// All zones that the header counts have been taken.
pub fn is_complete(intake: Intake) -> bool
    ensures { result ≡ complete intake }
{
    (1 <= intake.count) & (intake.count <= intake.walk.number)
}

// Nothing was refused, and a zone is to come.
fn goes_on(intake: Intake) -> bool
    ensures { result ≡ goes_on intake }
{
    intake.check.is_ok() & (intake.walk.number < intake.count)
}

// After a header or zone that is whole, nothing of the next is there.
pub fn wholly(intake: Intake) -> Received
    ensures { result ≡ wholly intake }
{
    Received {
        intake,
        part: [0; 64],
        held: 0,
    }
}

// Takes the zones that are whole in these bytes, from `from` on, where they stand.
#[tactic(auto, unfolding(crate::specs::Bytes::fed))]
fn take_whole(
    rule: Rule,
    intake: Intake,
    bytes: &[u8],
    from: usize,
    cnv: &mut [u64],
    seq: &mut [u64],
) -> Whole
    requires { (0 < rule.unit) × BoundedIntake intake × (from ≤ length bytes.now) }
    ensures fed { fed rule (between (record { intake = result.intake; cnv = cnv.new; seq = seq.new })) (drop result.at bytes.now) ≡ fed rule (between (record { intake = intake; cnv = cnv.old; seq = seq.old })) (drop from bytes.now) }
    ensures inside { result.at ≤ length bytes.now }
    ensures bounded { BoundedIntake result.intake }
    ensures counted { (intake.check ≡ Ok tt → 1 ≤ intake.count) → result.intake.check ≡ Ok tt → 1 ≤ result.intake.count }
    ensures moved { goes_on intake ≡ true → from + zone_bytes ≤ length bytes.now → from + zone_bytes ≤ result.at }
    ensures done { goes_on result.intake ≡ true → length bytes.now < result.at + zone_bytes }
{
    let mut taken = intake;
    let mut at = from;
    while goes_on(taken) & (zones::ZONE_BYTES <= bytes.len() - at) {
        let z = zones::zone_at(bytes, at, taken.given);
        taken = intake::take_zone(rule, taken, z, cnv, seq);
        at += zones::ZONE_BYTES;
    }
    Whole { intake: taken, at }
}

// Takes the header or zone of these bytes. A zone is taken by the loop over whole ones, so that its code is there once and compiled into that loop.
fn take_unit(rule: Rule, intake: Intake, b: &[u8], cnv: &mut [u64], seq: &mut [u64]) -> Intake
    requires { (0 < rule.unit) × BoundedIntake intake × (intake.check ≡ Ok tt) × (complete intake ≡ false) × (length b.now ≡ zone_bytes) }
    ensures { unit_taken rule (record { intake = intake; cnv = cnv.old; seq = seq.old }) b.now ≡ record { intake = result; cnv = cnv.new; seq = seq.new } }
{
    if intake.count == 0 {
        intake::take_header(intake, b)
    } else {
        take_whole(rule, intake, b, 0, cnv, seq).intake
    }
}

// A byte after the last zone is refused.
fn refuse_extra(received: Received, bytes: usize) -> Received
    ensures { result ≡ cond (ltb 0 bytes) (extra_byte received) received }
{
    if 0 < bytes {
        Received {
            intake: intake::refused_with(received.intake, Refusal::BadReport),
            ..received
        }
    } else {
        received
    }
}

// Adds bytes to those that are there of the next header or zone, and takes it once they are all.
fn add_bytes(
    rule: Rule,
    received: Received,
    bytes: &[u8],
    cnv: &mut [u64],
    seq: &mut [u64],
) -> Progress
    requires { (0 < rule.unit) × BoundedReceived received × (received.intake.check ≡ Ok tt) × (complete received.intake ≡ false) }
    ensures fed { fed rule (record { received = received; cnv = cnv.old; seq = seq.old }) (take result.used bytes.now) ≡ record { received = result.received; cnv = cnv.new; seq = seq.new } }
    ensures used { result.used ≤ length bytes.now }
    ensures taken { result.used < length bytes.now → JustTaken result.received }
    ensures rest { (goes_on received.intake ≡ true → length bytes.now < zone_bytes) → JustTaken received → result.used ≡ length bytes.now }
{
    let intake = received.intake;
    let unit = unit_bytes(intake);
    let n = (unit - received.held).min(bytes.len());
    let mut part = received.part;
    wire::put_bytes(&mut part[..], received.held, &bytes[..n]);
    let held = received.held + n;
    if held == unit {
        Progress {
            received: wholly(take_unit(rule, intake, &part[..], cnv, seq)),
            used: n,
        }
    } else {
        Progress {
            received: Received { intake, part, held },
            used: n,
        }
    }
}

// Takes what it can of these bytes, up to the end of the next header or zone. After a refusal, and after the last zone, that is all of them.
fn collect(
    rule: Rule,
    received: Received,
    bytes: &[u8],
    cnv: &mut [u64],
    seq: &mut [u64],
) -> Progress
    requires { (0 < rule.unit) × BoundedReceived received }
    ensures fed { fed rule (record { received = received; cnv = cnv.old; seq = seq.old }) (take result.used bytes.now) ≡ record { received = result.received; cnv = cnv.new; seq = seq.new } }
    ensures used { result.used ≤ length bytes.now }
    ensures taken { result.used < length bytes.now → JustTaken result.received }
    ensures rest { (goes_on received.intake ≡ true → length bytes.now < zone_bytes) → JustTaken received → result.used ≡ length bytes.now }
{
    let intake = received.intake;
    if let Err(_) = intake.check {
        return Progress {
            received,
            used: bytes.len(),
        };
    }
    if is_complete(intake) {
        Progress {
            received: refuse_extra(received, bytes.len()),
            used: bytes.len(),
        }
    } else {
        add_bytes(rule, received, bytes, cnv, seq)
    }
}

// Takes the bytes of a piece: what is missing of an unfinished header or zone, then the zones that are whole, and what is left of the last.
pub fn receive(
    rule: Rule,
    received: Received,
    bytes: &[u8],
    cnv: &mut [u64],
    seq: &mut [u64],
) -> Received
    requires { (0 < rule.unit) × BoundedReceived received }
    ensures { fed rule (record { received = received; cnv = cnv.old; seq = seq.old }) bytes.now ≡ record { received = result; cnv = cnv.new; seq = seq.new } }
{
    let first = collect(rule, received, bytes, cnv, seq);
    let begun = first.received;
    if first.used < bytes.len() {
        let intake = begun.intake;
        let whole = take_whole(rule, intake, bytes, first.used, cnv, seq);
        let at = whole.at;
        let rest = wholly(whole.intake);
        let last = collect(rule, rest, &bytes[at..], cnv, seq);
        last.received
    } else {
        begun
    }
}
