// A mount: the checks 20 to 30 and 33, and the rows of a report's files, written into two lent tables.
#![tactic(auto)]

ghost use Rattle.std.specs.Prelude.{◌≡◌, true, cond, ℕ, ◌+◌, ◌≤◌, ◌^◌, length};
ghost use Rattle.types.specs.Blocks.{good_block, most_files};
ghost use Rattle.types.specs.Codes.{flag_code};
ghost use Rattle.table.specs.Rows.{rows_lent, set_row};
ghost use Rattle.zones.specs.Facts.{Bounded};
ghost use Rattle.files.specs.Files.{seq_row, seq_rows, cnv_rows};
ghost use Rattle.files.specs.Walk.{row_of_run, is_seq_file};
ghost use Rattle.mount.specs.Fill.{fill};
ghost use Rattle.mount.specs.Mount.{bad_options, file_zones, opening_check, files_check, answer_for, mount_answer_of, policy_of, explicit_of, account_of, volume_of, mount_of, table_after, mount_outcome};
ghost use Rattle.mount.specs.Facts.{Fits};

use files::{Run, Walk};
use options::Asked;
use superblock::SuperBlock;
use types::answers::refuse_if;
use types::{Account, ErrorPolicy, Mount, MountOutcome, Refusal, Volume};
use zones::Zone;

fn bad_options(parsed: Option<Asked>) -> bool
    ensures { result ≡ bad_options parsed }
{
    parsed.is_none()
}

// The checks 20 to 27, with what was found of the super block.
#[tactic(auto, unfolding(types::specs::Verdicts::refuse, types::specs::Verdicts::and_then, crate::specs::Mount::opening_check))]
pub fn opening_check(
    block: u64,
    found: Result<(), Refusal>,
    parsed: Option<Asked>,
) -> Result<(), Refusal>
    ensures { result ≡ opening_check block found parsed }
{
    refuse_if(!types::units::good_block(block), Refusal::BadBlock)?;
    found?;
    refuse_if(bad_options(parsed), Refusal::BadOptions)
}

// The refusal, or the numbers of files.
#[tactic(auto, unfolding(crate::specs::Mount::answer_for))]
pub fn answer_for(found: Result<(), Refusal>, cnvs: u32, seqs: u32) -> Result<(u32, u32), Refusal>
    ensures { result ≡ answer_for found cnvs seqs }
{
    found?; // whichever refusal it is
    Ok((cnvs, seqs))
}

// The answer of the checks 28 to 30, with room for so many rows of each kind. The walk has counted what a good report holds.
fn files_answer(
    block: u64,
    aggregate: bool,
    b: &[u8],
    cnvs: usize,
    seqs: usize,
) -> Result<(u32, u32), Refusal>
    requires { good_block block ≡ true }
    ensures { result ≡ answer_for (files_check block aggregate b.now cnvs seqs) (length (cnv_rows aggregate (file_zones b.now))) (length (seq_rows (file_zones b.now))) }
{
    let walk = report::check_report(b, types::units::block_sectors(block), aggregate)?;
    let cnv = files::cnv_files(walk);
    let seq = walk.seqs;
    refuse_if((cnvs < cnv) | (seqs < seq), Refusal::TooFewRows)?;
    Ok((cnv as u32, seq as u32))
}

// The answer, from what was found of the super block and of the options. Only a good block has sectors to check the report by.
fn mount_answer(
    block: u64,
    found: Result<(), Refusal>,
    parsed: Option<Asked>,
    aggregate: bool,
    b: &[u8],
    cnvs: usize,
    seqs: usize,
) -> Result<(u32, u32), Refusal>
    ensures { result ≡ mount_answer_of block found parsed aggregate b.now cnvs seqs }
{
    opening_check(block, found, parsed)?;
    files_answer(block, aggregate, b, cnvs, seqs)
}

// Stores the row of a run at number `i`, if it is finished.
// It and `put_seq` stay beside those of `intake`: here there is room, there it is looked for.
fn put_run(t: &mut [u64], i: usize, run: Run, ends: bool)
    requires { (run.capacity ≤ 2 ^ 50) × (i + flag_code ends ≤ rows_lent (length t.old)) }
    ensures { t.new ≡ cond ends (set_row t.old i (row_of_run run)) t.old }
{
    if ends {
        table::put_row(t, i, files::row_of_run(run));
    }
}

// Stores the row of a zone, if it is a seq file.
fn put_seq(t: &mut [u64], walk: Walk, z: Zone)
    requires { Bounded z × (walk.seqs + flag_code (is_seq_file walk z) ≤ rows_lent (length t.old)) }
    ensures { t.new ≡ cond (is_seq_file walk z) (set_row t.old walk.seqs (seq_row z)) t.old }
{
    if files::is_seq_file(walk, z) {
        table::put_row(t, walk.seqs, files::seq_row(z));
    }
}

// Stores the rows of a report's files, each as the walk finishes it.
#[tactic(auto, unfolding(crate::specs::Fill::fill, files::specs::Files::cnv_rows, crate::specs::Mount::file_zones, files::specs::Files::seq_rows))]
fn write_files(b: &[u8], aggregate: bool, cnv: &mut [u64], seq: &mut [u64])
    requires { Fits aggregate b.now (rows_lent (length cnv.old)) (rows_lent (length seq.old)) }
    ensures cnvs { cnv.new ≡ fill cnv.old (cnv_rows aggregate (file_zones b.now)) }
    ensures seqs { seq.new ≡ fill seq.old (seq_rows (file_zones b.now)) }
{
    let count = report::zone_count(b);
    let mut walk = files::begin();
    // It stays a `while`: the number is the walk's own, and a `for` would count it a second time.
    while walk.number < count {
        let z = report::read_zone(b, walk.number);
        let run = walk.run;
        put_run(cnv, walk.cnvs, run, files::run_ends(aggregate, run, z));
        put_seq(seq, walk, z);
        walk = files::step(aggregate, walk, z);
    }
    let last = walk.run;
    put_run(cnv, walk.cnvs, last, last.active);
}

// Stores the rows of a report's files, where the mount is not refused.
#[tactic(auto, unfolding(crate::specs::Mount::table_after, files::specs::Files::cnv_rows, crate::specs::Mount::file_zones, files::specs::Files::seq_rows))]
fn fill_tables(
    answer: Result<(u32, u32), Refusal>,
    aggregate: bool,
    b: &[u8],
    cnv: &mut [u64],
    seq: &mut [u64],
)
    requires { (c s : ℕ) → answer ≡ Ok (c, s) → Fits aggregate b.now (rows_lent (length cnv.old)) (rows_lent (length seq.old)) }
    ensures cnvs { cnv.new ≡ table_after answer cnv.old (cnv_rows aggregate (file_zones b.now)) }
    ensures seqs { seq.new ≡ table_after answer seq.old (seq_rows (file_zones b.now)) }
{
    if let Ok((_, _)) = answer {
        write_files(b, aggregate, cnv, seq);
    }
}

// What options ask for. Bad ones ask for nothing, and the mount is refused.
fn policy_of(parsed: Option<Asked>) -> ErrorPolicy
    ensures { result ≡ policy_of parsed }
{
    parsed.map_or(ErrorPolicy::RemountRo, |asked| asked.policy)
}

fn explicit_of(parsed: Option<Asked>) -> bool
    ensures { result ≡ explicit_of parsed }
{
    parsed.is_some_and(|asked| asked.explicit)
}

// The account of a new mount: no file is open.
pub fn account_of(active: u32, open_limit: u32, active_limit: u32) -> Account
    ensures { result ≡ account_of active open_limit active_limit }
{
    Account {
        opened: 0,
        active,
        open_limit,
        active_limit,
    }
}

// What a mount fixes, with so many files.
pub fn volume_of(
    cnvs: u32,
    seqs: u32,
    block: u64,
    fields: SuperBlock,
    parsed: Option<Asked>,
) -> Volume
    ensures { result ≡ volume_of cnvs seqs block fields parsed }
{
    let uuid = fields.uuid;
    Volume {
        block,
        conventional: cnvs,
        sequential: seqs,
        owner: fields.owner,
        group: fields.group,
        mode: fields.mode,
        policy: policy_of(parsed),
        explicit: explicit_of(parsed),
        uuid,
    }
}

// The mount value: a refused mount hands out the empty one. The active files are counted in the table that the mount has filled.
#[tactic(auto, unfolding(crate::specs::Mount::mount_of))]
fn mount_of(
    answer: Result<(u32, u32), Refusal>,
    block: u64,
    fields: SuperBlock,
    parsed: Option<Asked>,
    open_limit: u32,
    active_limit: u32,
    seq: &[u64],
) -> Mount
    requires { (c s : ℕ) → answer ≡ Ok (c, s) → (s ≤ most_files) × (s ≤ rows_lent (length seq.now)) }
    ensures { result ≡ mount_of answer block fields parsed open_limit active_limit seq.now }
{
    match answer {
        Err(_) => types::mounts::empty_mount(),
        Ok((cnvs, seqs)) => {
            let volume = volume_of(cnvs, seqs, block, fields, parsed);
            let active = account::count_active(volume.explicit, seq, seqs);
            let account = account_of(active, open_limit, active_limit);
            Mount {
                volume,
                readonly: false,
                account,
            }
        }
    }
}

// Mounts: checks what is lent, fills the tables with the rows of the report's files, and hands out the mount value. A limit of 0 is none.
pub fn mount(
    block: u64,
    superblock: &[u8],
    options: &[u8],
    report: &[u8],
    open_limit: u32,
    active_limit: u32,
    cnv: &mut [u64],
    seq: &mut [u64],
) -> MountOutcome
    ensures answer { result.answer ≡ (mount_outcome block superblock.now options.now report.now open_limit active_limit cnv.old seq.old).answer }
    ensures mount { result.mount ≡ (mount_outcome block superblock.now options.now report.now open_limit active_limit cnv.old seq.old).mount }
    ensures cnvs { cnv.new ≡ (mount_outcome block superblock.now options.now report.now open_limit active_limit cnv.old seq.old).cnv }
    ensures seqs { seq.new ≡ (mount_outcome block superblock.now options.now report.now open_limit active_limit cnv.old seq.old).seq }
{
    let read = superblock::read_superblock(superblock);
    let found = superblock::found_in(read);
    let fields = superblock::fields_in(read);
    let aggregate = fields.aggregate;
    let parsed = options::read_options(options);
    let cnvs = table::rows_lent(cnv.len());
    let seqs = table::rows_lent(seq.len());
    let answer = mount_answer(block, found, parsed, aggregate, report, cnvs, seqs);
    fill_tables(answer, aggregate, report, cnv, seq);
    let mount = mount_of(answer, block, fields, parsed, open_limit, active_limit, seq);
    MountOutcome { answer, mount }
}
