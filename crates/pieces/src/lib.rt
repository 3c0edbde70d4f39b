// A mount whose report arrives in pieces, cut anywhere: begin, any number of pieces, each with both tables lent, and the end. Between them a
// value is held with what begin found, what has been taken of the report, and the bytes of one unfinished header or zone.
#![tactic(auto)]

ghost use Rattle.std.specs.Prelude.{◌≡◌};
ghost use Rattle.files.specs.Walk.{cnv_files};
ghost use Rattle.mount.specs.Mount.{answer_for};
ghost use Rattle.intake.specs.Facts.{BoundedIntake};
ghost use Rattle.pieces.specs.Pieces.{found_mount, begun_with, begun_as, begin_outcome, possible_intake, possible_received, possible_pieces, rule_of, received_by, piece_outcome, end_check, with_files, end_mount, ended_as, end_outcome};

use intake::{Intake, Rule};
use options::Asked;
use receiving::Received;
use superblock::SuperBlock;
use types::answers::refuse_if;
use types::{Account, Mount, Refusal, Volume, units};

// A mount in pieces: what begin found, as a mount value of no files yet, whether neighbouring conventional zones are one file, and what
// has been received.
#[derive(Clone, Copy)]
pub struct Pieces {
    pub mount: Mount,
    pub aggregate: bool,
    pub received: Received,
}

// What begin or a piece gives beside the tables.
// The answer stays beside the value: both are there in either case.
#[derive(Clone, Copy)]
pub struct PiecesOutcome {
    pub answer: Result<(), Refusal>,
    pub pieces: Pieces,
}

// What the end gives.
// The answer stays beside the mount: a refusal hands out the empty one (`end_outcome` of the specs), and C gets its words.
#[derive(Clone, Copy)]
pub struct EndOutcome {
    pub answer: Result<(u32, u32), Refusal>,
    pub mount: Mount,
    pub pieces: Pieces,
}

// What begin found, as a mount value of no files yet.
fn found_mount(
    block: u64,
    fields: SuperBlock,
    parsed: Option<Asked>,
    open_limit: u32,
    active_limit: u32,
) -> Mount
    ensures { result ≡ found_mount block fields parsed open_limit active_limit }
{
    Mount {
        volume: mount::volume_of(0, 0, block, fields, parsed),
        readonly: false,
        account: mount::account_of(0, open_limit, active_limit),
    }
}

fn begun_with(mount: Mount, aggregate: bool) -> Pieces
    ensures { result ≡ begun_with mount aggregate }
{
    Pieces {
        mount,
        aggregate,
        received: receiving::wholly(intake::nothing_taken()),
    }
}

// What a refused begin hands out can't be gone on with.
#[tactic(auto, unfolding(crate::specs::Pieces::begun_as))]
fn begun_as(found: Result<(), Refusal>, mount: Mount, aggregate: bool) -> Pieces
    ensures { result ≡ begun_as found mount aggregate }
{
    match found {
        Ok(()) => begun_with(mount, aggregate),
        Err(_) => begun_with(types::mounts::empty_mount(), false),
    }
}

// Begins a mount whose report arrives in pieces: the checks 20 to 27 and 33.
#[tactic(auto, unfolding(crate::specs::Pieces::begin_outcome))]
pub fn begin(
    block: u64,
    superblock: &[u8],
    options: &[u8],
    open_limit: u32,
    active_limit: u32,
) -> PiecesOutcome
    ensures { begin_outcome block superblock.now options.now open_limit active_limit ≡ record { answer = result.answer; pieces = result.pieces } }
{
    let read = superblock::read_superblock(superblock);
    let found = superblock::found_in(read);
    let fields = superblock::fields_in(read);
    let parsed = options::read_options(options);
    let answer = mount::opening_check(block, found, parsed);
    let mount = found_mount(block, fields, parsed, open_limit, active_limit);
    let pieces = begun_as(answer, mount, fields.aggregate);
    PiecesOutcome { answer, pieces }
}

fn possible_intake(intake: Intake) -> bool
    ensures { result ≡ possible_intake intake }
{
    let walk = intake.walk;
    let run = walk.run;
    (intake.count <= units::MOST_ZONES)
        & (walk.number <= intake.count)
        & (walk.expected <= units::LAST_SECTOR)
        & (run.capacity <= walk.expected)
        & (walk.cnvs <= walk.number)
        & (walk.seqs <= walk.number)
        & (intake.active as usize <= walk.seqs)
}

fn possible_received(received: Received) -> bool
    ensures { result ≡ possible_received received }
{
    let intake = received.intake;
    let possible = possible_intake(intake);
    possible & (received.held < receiving::unit_bytes(intake))
}

// A value that can be gone on with: a good block, and numbers of which no sum wraps.
#[tactic(auto, unfolding(crate::specs::Pieces::possible_pieces))]
pub fn is_possible(pieces: Pieces) -> bool
    ensures { result ≡ possible_pieces pieces }
{
    units::good_block(pieces.mount.volume.block) & possible_received(pieces.received)
}

// By what its zones are taken.
fn rule_of(pieces: Pieces) -> Rule
    ensures { result ≡ rule_of pieces }
{
    let volume = pieces.mount.volume;
    Rule {
        unit: units::block_sectors(volume.block),
        aggregate: pieces.aggregate,
        explicit: volume.explicit,
    }
}

fn received_by(pieces: Pieces, received: Received) -> Pieces
    ensures { result ≡ received_by pieces received }
{
    Pieces { received, ..pieces }
}

// Takes a piece of the report, of any length, with both tables lent.
pub fn piece(pieces: Pieces, bytes: &[u8], cnv: &mut [u64], seq: &mut [u64]) -> PiecesOutcome
    ensures { piece_outcome pieces bytes.now cnv.old seq.old ≡ record { answer = result.answer; pieces = result.pieces; cnv = cnv.new; seq = seq.new } }
{
    if is_possible(pieces) {
        let received = receiving::receive(rule_of(pieces), pieces.received, bytes, cnv, seq);
        PiecesOutcome {
            answer: received.intake.check,
            pieces: received_by(pieces, received),
        }
    } else {
        PiecesOutcome {
            answer: Err(Refusal::Impossible),
            pieces,
        }
    }
}

// What was found, and that no byte is missing.
#[tactic(auto, unfolding(types::specs::Verdicts::refuse, types::specs::Verdicts::and_then, crate::specs::Pieces::end_check))]
fn end_check(intake: Intake) -> Result<(), Refusal>
    ensures { result ≡ end_check intake }
{
    intake.check?;
    refuse_if(!receiving::is_complete(intake), Refusal::BadReport)
}

// The mount value, with so many files of each kind, of which so many are active.
fn with_files(mount: Mount, cnvs: u32, seqs: u32, active: u32) -> Mount
    ensures { result ≡ with_files mount cnvs seqs active }
{
    Mount {
        volume: Volume {
            conventional: cnvs,
            sequential: seqs,
            ..mount.volume
        },
        account: Account {
            active,
            ..mount.account
        },
        ..mount
    }
}

fn end_mount(answer: Result<(u32, u32), Refusal>, mount: Mount, intake: Intake) -> Mount
    ensures { result ≡ end_mount answer mount intake }
{
    match answer {
        Err(_) => types::mounts::empty_mount(),
        Ok((cnvs, seqs)) => with_files(mount, cnvs, seqs, intake.active),
    }
}

// What was found at the end stays found.
fn ended_as(received: Received, found: Result<(), Refusal>) -> Received
    ensures { result ≡ ended_as received found }
{
    Received {
        intake: Intake {
            check: found,
            ..received.intake
        },
        ..received
    }
}

// The answer at the end: what was found, or the numbers of files.
fn end_answer(intake: Intake, found: Result<(), Refusal>) -> Result<(u32, u32), Refusal>
    requires { BoundedIntake intake }
    ensures { result ≡ answer_for found (cnv_files intake.walk) intake.walk.seqs }
{
    let walk = intake.walk;
    let cnvs = files::cnv_files(walk);
    mount::answer_for(found, cnvs as u32, walk.seqs as u32)
}

// Ends a mount in pieces: hands out the mount value, or refuses.
pub fn end(pieces: Pieces) -> EndOutcome
    ensures { end_outcome pieces ≡ record { answer = result.answer; mount = result.mount; pieces = result.pieces } }
{
    if is_possible(pieces) {
        let received = pieces.received;
        let intake = received.intake;
        let found = end_check(intake);
        let answer = end_answer(intake, found);
        EndOutcome {
            answer,
            mount: end_mount(answer, pieces.mount, intake),
            pieces: received_by(pieces, ended_as(received, found)),
        }
    } else {
        EndOutcome {
            answer: Err(Refusal::Impossible),
            mount: types::mounts::empty_mount(),
            pieces,
        }
    }
}
