// What is held of a mount in pieces, in words that a caller in C keeps between its calls. Any words whatever are taken: whether they hold such a value is
// tested first.
#![tactic(auto)]

ghost use Rattle.std.specs.Prelude.{◌≡◌, true, ◌+◌, ◌≤◌, length};
ghost use Rattle.std.proofs.lemmas.List.Edits.{sets};
ghost use Rattle.types.specs.Numbers.{verdict_values};
ghost use Rattle.answer_words.specs.Answers.{values_of, written};
ghost use Rattle.pieces_words.specs.Words.{pieces_length, check_at, check_words, taken_at, taken_words, held_at, held_words, pieces_words, good_check, good_numbers, possible_words, reason_from, check_from, walk_from, intake_from, part_from, pieces_from};

use answer_words::AnswerWords;
use files::{Run, Walk};
use intake::Intake;
use mount_words::{FLAGS, SHORT};
use pieces::Pieces;
use receiving::Received;
use types::{Refusal, ZoneFault, codes};

// The words of a mount in pieces.
pub const PIECES_WORDS: usize = 39;

// Where its fields stand: the mount value that begin found is in front, then its account,
const ACCOUNT: usize = 11;

// whether neighbouring conventional zones are one file, and what the checks have found,
const AGGREGATE: usize = 15;

const CHECK: usize = 16;

const FIRST: usize = 17;

const SECOND: usize = 18;

// what else was taken of the report,
const COUNT: usize = 19;

const GIVEN: usize = 20;

const NUMBER: usize = 21;

const EXPECTED: usize = 22;

const RUN: usize = 23;

const RUN_START: usize = 24;

const RUN_CAPACITY: usize = 25;

const RUN_HEALTHY: usize = 26;

const CNVS: usize = 27;

const SEQS: usize = 28;

const ACTIVE: usize = 29;

// and what is held of its next header or zone.
const HELD: usize = 30;

const PART: usize = 31;

const PART_WORDS: usize = 8;

// The refusals that a report's bytes lead to, and the most that a zone's reason can be.
const BAD_REPORT: u64 = 28;

const BAD_ZONE: u64 = 29;

const TOO_FEW_ROWS: u64 = 30;

const LAST_REASON: u64 = 7;

fn good_check(number: u64, first: u64, second: u64) -> bool
    ensures { result ≡ good_check number first second }
{
    (((number == 0) | (number == BAD_REPORT) | (number == TOO_FEW_ROWS))
        & (first == 0)
        & (second == 0))
        | ((number == BAD_ZONE) & (first < SHORT) & (1 <= second) & (second <= LAST_REASON))
}

fn good_numbers(w: &[u64]) -> bool
    requires { pieces_length ≤ length w.now }
    ensures { result ≡ good_numbers w.now }
{
    (w[GIVEN] < FLAGS) & (w[RUN] < FLAGS) & (w[RUN_HEALTHY] < FLAGS) & (w[ACTIVE] < SHORT)
}

// The words can hold a mount in pieces. Any words are taken.
#[tactic(auto, unfolding(crate::specs::Words::possible_words), using(crate::proofs::Parts::rest_all))]
pub fn is_pieces(w: &[u64]) -> bool
    ensures value { result ≡ possible_words w.now }
    ensures pieces_length_in_bounds { result ≡ true → pieces_length ≤ length w.now }
{
    PIECES_WORDS <= w.len()
        && mount_words::is_possible(w, &w[ACCOUNT..])
        && (w[AGGREGATE] < FLAGS) & good_check(w[CHECK], w[FIRST], w[SECOND]) & good_numbers(w)
}

fn fault_from(code: u64) -> Option<ZoneFault>
    ensures { result ≡ reason_from code }
{
    match code {
        1 => Some(ZoneFault::Start),
        2 => Some(ZoneFault::Length),
        3 => Some(ZoneFault::Capacity),
        4 => Some(ZoneFault::End),
        5 => Some(ZoneFault::Type),
        6 => Some(ZoneFault::Condition),
        _ => Some(ZoneFault::Pointer),
    }
}

#[tactic(auto, unfolding(crate::specs::Words::check_from))]
fn check_from(number: u64, first: u64, second: u64) -> Result<(), Refusal>
    ensures { result ≡ check_from number first second }
{
    match number {
        0 => Ok(()),
        BAD_REPORT => Err(Refusal::BadReport),
        BAD_ZONE => Err(Refusal::BadZone((first % SHORT) as u32, fault_from(second))),
        _ => Err(Refusal::TooFewRows),
    }
}

fn walk_from(w: &[u64]) -> Walk
    requires { pieces_length ≤ length w.now }
    ensures { result ≡ walk_from w.now }
{
    Walk {
        number: w[NUMBER] as usize,
        expected: w[EXPECTED],
        run: Run {
            active: w[RUN] != 0,
            start: w[RUN_START],
            capacity: w[RUN_CAPACITY],
            healthy: w[RUN_HEALTHY] != 0,
        },
        cnvs: w[CNVS] as usize,
        seqs: w[SEQS] as usize,
    }
}

fn intake_from(w: &[u64]) -> Intake
    requires { pieces_length ≤ length w.now }
    ensures { result ≡ intake_from w.now }
{
    Intake {
        check: check_from(w[CHECK], w[FIRST], w[SECOND]),
        count: w[COUNT] as usize,
        given: w[GIVEN] != 0,
        walk: walk_from(w),
        active: (w[ACTIVE] % SHORT) as u32,
    }
}

fn part_from(w: &[u64]) -> [u8; 64]
    requires { pieces_length ≤ length w.now }
    ensures { result ≡ part_from w.now }
{
    let mut part = [0u8; 64];
    for k in 0..PART_WORDS {
        wire::put_number(&mut part[..], 8 * k, 8, w[PART + k]);
    }
    part
}

// The mount in pieces that possible words hold.
#[tactic(auto, unfolding(crate::specs::Words::pieces_from), using(crate::proofs::Parts::rest_all))]
pub fn pieces_from(w: &[u64]) -> Pieces
    requires { pieces_length ≤ length w.now }
    ensures { result ≡ pieces_from w.now }
{
    Pieces {
        mount: mount_words::mount_from(w, &w[ACCOUNT..]),
        aggregate: w[AGGREGATE] != 0,
        received: Received {
            intake: intake_from(w),
            part: part_from(w),
            held: w[HELD] as usize,
        },
    }
}

// The values of what checks have found: none where they are passed.
pub fn verdict_values(v: Result<(), Refusal>) -> AnswerWords
    ensures { result ≡ values_of (verdict_values v) }
{
    match v {
        Ok(()) => answer_words::of_values([]),
        Err(x) => answer_words::refusal_values(x),
    }
}

fn put_check(w: &mut [u64], aggregate: bool, check: Result<(), Refusal>)
    requires { pieces_length ≤ length w.old }
    ensures { w.new ≡ sets w.old check_at (check_words aggregate check) }
{
    let found = verdict_values(check).values;
    w[AGGREGATE] = codes::flag_code(aggregate);
    w[CHECK] = types::answers::number_of(check);
    w[FIRST] = found[0];
    w[SECOND] = found[1];
}

fn put_taken(w: &mut [u64], intake: Intake)
    requires { pieces_length ≤ length w.old }
    ensures { w.new ≡ sets w.old taken_at (taken_words intake) }
{
    let walk = intake.walk;
    let run = walk.run;
    w[COUNT] = intake.count as u64;
    w[GIVEN] = codes::flag_code(intake.given);
    w[NUMBER] = walk.number as u64;
    w[EXPECTED] = walk.expected;
    w[RUN] = codes::flag_code(run.active);
    w[RUN_START] = run.start;
    w[RUN_CAPACITY] = run.capacity;
    w[RUN_HEALTHY] = codes::flag_code(run.healthy);
    w[CNVS] = walk.cnvs as u64;
    w[SEQS] = walk.seqs as u64;
    w[ACTIVE] = intake.active as u64;
}

fn put_held(w: &mut [u64], x: Received)
    requires { pieces_length ≤ length w.old }
    ensures { w.new ≡ sets w.old held_at (held_words x) }
{
    w[HELD] = x.held as u64;
    for k in 0..PART_WORDS {
        w[PART + k] = wire::u64_at(&x.part, 8 * k);
    }
}

// Puts a mount in pieces into the words, whatever stands there.
pub fn put_pieces(w: &mut [u64], p: Pieces)
    requires { pieces_length ≤ length w.old }
    ensures { w.new ≡ written w.old (pieces_words p) }
{
    let received = p.received;
    mount_words::put_mount(w, p.mount);
    mount_words::put_account(&mut w[ACCOUNT..], p.mount.account);
    put_check(w, p.aggregate, received.intake.check);
    put_taken(w, received.intake);
    put_held(w, received);
}
