// One header or zone of a report, as it arrives: what is checked, and which rows are stored in two lent tables.
#![tactic(auto)]

ghost use Rattle.std.specs.Prelude.{◌≡◌, ◌≤◌, ◌<◌, ◌^◌, length};
ghost use Rattle.zones.specs.Facts.{Bounded};
ghost use Rattle.files.specs.Files.{seq_row};
ghost use Rattle.files.specs.Walk.{row_of_run, is_seq_file, stepped};
ghost use Rattle.report.specs.Report.{header_bytes};
ghost use Rattle.intake.specs.Steps.{nothing_taken, refused_with, header_taken, begins_cnv, ends_before, ends_with, put_row, lacks, no_row, active_file, filed, good_taken, zone_taken};
ghost use Rattle.intake.specs.Facts.{Ready};

use files::{Run, Walk};
use types::Refusal;
use zones::Zone;

// By what a report's zones are taken: the block in sectors, whether neighbouring conventional zones are one file, and whether files are opened by hand.
#[derive(Clone, Copy)]
pub struct Rule {
    pub unit: u64,
    pub aggregate: bool,
    pub explicit: bool,
}

// What has been taken of a report: what its checks have found, how many zones its header counts (0 before the header is there) and whether it gives
// capacities, the walk over its zones, and how many files are active.
// What was found and what was taken stay beside each other: after a refusal C keeps the words of both (`taken_words` of the specs).
#[derive(Clone, Copy)]
pub struct Intake {
    pub check: Result<(), Refusal>,
    pub count: usize,
    pub given: bool,
    pub walk: Walk,
    pub active: u32,
}

// Before a report's first byte.
pub fn nothing_taken() -> Intake
    ensures { result ≡ nothing_taken }
{
    let walk = files::begin();
    Intake {
        check: Ok(()),
        count: 0,
        given: false,
        walk,
        active: 0,
    }
}

// The same walk, made anew: a copy of the whole struct takes the bytes between its fields along, and the loop over a piece's zones then carries them from
// zone to zone, at a third of its pace.
fn same_walk(walk: Walk) -> Walk
    ensures { result ≡ walk }
{
    let run = walk.run;
    let same = Run {
        active: run.active,
        start: run.start,
        capacity: run.capacity,
        healthy: run.healthy,
    };
    Walk {
        number: walk.number,
        expected: walk.expected,
        run: same,
        cnvs: walk.cnvs,
        seqs: walk.seqs,
    }
}

// With a refusal, and else as it was.
pub fn refused_with(intake: Intake, x: Refusal) -> Intake
    ensures { result ≡ refused_with intake x }
{
    Intake {
        check: Err(x),
        walk: same_walk(intake.walk),
        ..intake
    }
}

// Takes the header that these bytes begin with.
#[tactic(auto, unfolding(crate::specs::Steps::header_taken))]
pub fn take_header(intake: Intake, h: &[u8]) -> Intake
    requires { header_bytes ≤ length h.now }
    ensures { result ≡ header_taken intake h.now }
{
    if report::good_fields(h) {
        Intake {
            count: report::zone_count(h),
            given: report::capacity_given(h),
            ..intake
        }
    } else {
        refused_with(intake, Refusal::BadReport)
    }
}

// A zone begins a file of conventional zones. Zone 0 is no file.
fn begins_cnv(aggregate: bool, walk: Walk, z: Zone) -> bool
    ensures { result ≡ begins_cnv aggregate walk z }
{
    let run = walk.run;
    let first = files::at_zone_0(walk);
    let conventional = zones::is_conventional(z);
    !first & conventional & !(aggregate & run.active)
}

// A zone of another type finishes the run before it.
fn ends_before(aggregate: bool, walk: Walk, z: Zone) -> bool
    ensures { result ≡ ends_before aggregate walk z }
{
    let run = walk.run;
    aggregate & files::run_ends(aggregate, run, z)
}

// The zone that led to this walk finishes the run that it belongs to: it is a file by itself, or the last zone.
fn ends_with(aggregate: bool, count: usize, after: Walk) -> bool
    ensures { result ≡ ends_with aggregate count after }
{
    let run = after.run;
    run.active & (!aggregate | (after.number == count))
}

// A row is asked for that the table doesn't have.
fn lacks(asked: bool, i: usize, rows: usize) -> bool
    ensures { result ≡ lacks asked i rows }
{
    asked & (rows <= i)
}

// A good zone finds no row, where its walk leads to `after`.
#[tactic(auto, unfolding(crate::specs::Steps::no_row))]
fn no_row(
    aggregate: bool,
    count: usize,
    walk: Walk,
    after: Walk,
    z: Zone,
    cnv_rows: usize,
    seq_rows: usize,
) -> bool
    requires { after ≡ stepped aggregate walk z }
    ensures { result ≡ no_row aggregate count walk z cnv_rows seq_rows }
{
    let ended = lacks(ends_before(aggregate, walk, z), walk.cnvs, cnv_rows);
    let begins = begins_cnv(aggregate, walk, z);
    let own = lacks(
        begins | ends_with(aggregate, count, after),
        after.cnvs,
        cnv_rows,
    );
    let seq = lacks(files::is_seq_file(walk, z), walk.seqs, seq_rows);
    ended | own | seq
}

// A zone is a sequential file, and active from the start.
fn active_file(explicit: bool, walk: Walk, z: Zone) -> bool
    requires { Bounded z }
    ensures { result ≡ active_file explicit walk z }
{
    if files::is_seq_file(walk, z) {
        account::is_active(explicit, files::seq_row(z))
    } else {
        false
    }
}

// Stores the row of a run at number `i`, if it is asked for and the table has it.
fn put_run(t: &mut [u64], i: usize, run: Run, asked: bool)
    requires { run.capacity ≤ 2 ^ 50 }
    ensures { t.new ≡ put_row asked t.old i (row_of_run run) }
{
    if asked & (i < table::rows_lent(t.len())) {
        table::put_row(t, i, files::row_of_run(run));
    }
}

// Stores the row of a zone, if it is a sequential file and the table has it.
fn put_seq(t: &mut [u64], walk: Walk, z: Zone)
    requires { Bounded z }
    ensures { t.new ≡ put_row (is_seq_file walk z) t.old walk.seqs (seq_row z) }
{
    if files::is_seq_file(walk, z) & (walk.seqs < table::rows_lent(t.len())) {
        table::put_row(t, walk.seqs, files::seq_row(z));
    }
}

// Takes a good zone, whose walk leads to `after`, and stores what is finished with it.
fn file_zone(
    rule: Rule,
    intake: Intake,
    after: Walk,
    z: Zone,
    cnv: &mut [u64],
    seq: &mut [u64],
) -> Intake
    requires { Ready intake × Bounded z × (z.start ≡ intake.walk.expected) × (after ≡ stepped rule.aggregate intake.walk z) }
    ensures { filed rule (record { intake = intake; cnv = cnv.old; seq = seq.old }) z ≡ record { intake = result; cnv = cnv.new; seq = seq.new } }
{
    let walk = intake.walk;
    let run = after.run;
    put_run(
        cnv,
        after.cnvs,
        run,
        ends_with(rule.aggregate, intake.count, after),
    );
    put_seq(seq, walk, z);
    let more = types::codes::flag_code(active_file(rule.explicit, walk, z));
    let active = intake.active + more as u32;
    Intake {
        check: Ok(()),
        walk: after,
        active,
        ..intake
    }
}

// Takes a good zone. The run that it finishes is stored also where the zone itself finds no row.
#[tactic(auto, unfolding(crate::specs::Steps::good_taken))]
fn take_good(rule: Rule, intake: Intake, z: Zone, cnv: &mut [u64], seq: &mut [u64]) -> Intake
    requires { Ready intake × Bounded z × (z.start ≡ intake.walk.expected) }
    ensures { good_taken rule (record { intake = intake; cnv = cnv.old; seq = seq.old }) z ≡ record { intake = result; cnv = cnv.new; seq = seq.new } }
{
    let walk = intake.walk;
    let run = walk.run;
    let after = files::step(rule.aggregate, walk, z);
    let cnv_rows = table::rows_lent(cnv.len());
    let seq_rows = table::rows_lent(seq.len());
    let short = no_row(
        rule.aggregate,
        intake.count,
        walk,
        after,
        z,
        cnv_rows,
        seq_rows,
    );
    put_run(cnv, walk.cnvs, run, ends_before(rule.aggregate, walk, z));
    if short {
        refused_with(intake, Refusal::TooFewRows)
    } else {
        file_zone(rule, intake, after, z, cnv, seq)
    }
}

// Takes the next zone. A bad one finishes nothing.
pub fn take_zone(rule: Rule, intake: Intake, z: Zone, cnv: &mut [u64], seq: &mut [u64]) -> Intake
    requires { (0 < rule.unit) × Ready intake }
    ensures { zone_taken rule (record { intake = intake; cnv = cnv.old; seq = seq.old }) z ≡ record { intake = result; cnv = cnv.new; seq = seq.new } }
{
    let walk = intake.walk;
    let fault = zones::zone_fault(z, walk.expected, rule.unit);
    if zones::is_faultless(fault) {
        take_good(rule, intake, z, cnv, seq)
    } else {
        refused_with(intake, Refusal::BadZone(walk.number as u32, fault))
    }
}
