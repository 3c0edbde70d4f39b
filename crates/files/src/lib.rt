// What becomes a file: the rows of a report's zones, by one walk that takes a zone at a time into a small state.
#![tactic(auto)]

ghost use Rattle.std.specs.Prelude.{◌≡◌, true, ◌≤◌, ◌^◌};
ghost use Rattle.zones.specs.Zone.{sequential};
ghost use Rattle.zones.specs.Facts.{Bounded};
ghost use Rattle.files.specs.Files.{file_row, seq_row};
ghost use Rattle.files.specs.Walk.{no_run, next_run, run_ends, row_of_run, begun, at_zone0, run_after, is_seq_file, stepped, cnv_files};
ghost use Rattle.files.specs.Facts.{BoundedWalk};

use types::Row;
use zones::Zone;

// A run of conventional zones that may go on, or none. Start and capacity in sectors.
// The flag stays beside the numbers: words of C without a run hold any, and `walk_from` of the specs puts them back.
#[derive(Clone, Copy)]
pub struct Run {
    pub active: bool,
    pub start: u64,
    pub capacity: u64,
    pub healthy: bool,
}

// Where a walk stands: the number of the next zone and where it must start, the run that is not finished, and how many files of each
// kind are.
#[derive(Clone, Copy)]
pub struct Walk {
    pub number: usize,
    pub expected: u64,
    pub run: Run,
    pub cnvs: usize,
    pub seqs: usize,
}

// A file's row at mount: what is not healthy is kept as offline.
fn file_row(healthy: bool, start: u64, capacity: u64, size: u64) -> Row
    ensures { result ≡ file_row healthy start capacity size }
{
    if healthy {
        table::healthy_row(start, capacity, size)
    } else {
        table::offline_row(start, capacity)
    }
}

// The row of a sequential zone. Only a healthy one says how much of it is written.
// It stays apart from `file_row`: only a healthy zone's size may be computed.
pub fn seq_row(z: Zone) -> Row
    requires { Bounded z × (sequential z ≡ true) }
    ensures { result ≡ seq_row z }
{
    let capacity = types::units::bytes_of(z.capacity);
    if zones::is_healthy(z) {
        let size = zones::written_size(z);
        table::healthy_row(z.start, capacity, size)
    } else {
        table::offline_row(z.start, capacity)
    }
}

fn no_run() -> Run
    ensures { result ≡ no_run }
{
    Run {
        active: false,
        start: 0,
        capacity: 0,
        healthy: true,
    }
}

// The run after a zone.
#[tactic(auto, unfolding(crate::specs::Walk::next_run))]
fn next_run(aggregate: bool, run: Run, z: Zone) -> Run
    requires { (z.capacity ≤ 2 ^ 40) × (run.capacity ≤ 2 ^ 50) }
    ensures { result ≡ next_run aggregate run z }
{
    let fine = zones::is_healthy(z);
    if !zones::is_conventional(z) {
        no_run()
    } else if aggregate & run.active {
        Run {
            capacity: run.capacity + z.capacity,
            healthy: run.healthy & fine,
            ..run
        }
    } else {
        Run {
            active: true,
            start: z.start,
            capacity: z.capacity,
            healthy: fine,
        }
    }
}

// A zone finishes the run.
pub fn run_ends(aggregate: bool, run: Run, z: Zone) -> bool
    ensures { result ≡ run_ends aggregate run z }
{
    run.active & !(aggregate & zones::is_conventional(z))
}

// The row of a finished run.
pub fn row_of_run(run: Run) -> Row
    requires { run.capacity ≤ 2 ^ 50 }
    ensures { result ≡ row_of_run run }
{
    let capacity = types::units::bytes_of(run.capacity);
    file_row(run.healthy, run.start, capacity, capacity)
}

// The walk before zone 0.
pub fn begin() -> Walk
    ensures { result ≡ begun }
{
    Walk {
        number: 0,
        expected: 0,
        run: no_run(),
        cnvs: 0,
        seqs: 0,
    }
}

// Zone 0 comes next. It is never a file.
pub fn at_zone_0(walk: Walk) -> bool
    ensures { result ≡ at_zone0 walk }
{
    walk.number == 0
}

// The walk's run after a zone.
fn run_after(aggregate: bool, walk: Walk, z: Zone) -> Run
    requires { BoundedWalk walk × Bounded z }
    ensures { result ≡ run_after aggregate walk z }
{
    if at_zone_0(walk) {
        no_run()
    } else {
        next_run(aggregate, walk.run, z)
    }
}

// A zone is a seq file by itself.
pub fn is_seq_file(walk: Walk, z: Zone) -> bool
    ensures { result ≡ is_seq_file walk z }
{
    !at_zone_0(walk) & zones::is_sequential(z)
}

// The walk after a zone.
#[tactic(auto, unfolding(crate::specs::Walk::stepped), using(crate::proofs::Walks::flag_small))]
pub fn step(aggregate: bool, walk: Walk, z: Zone) -> Walk
    requires { BoundedWalk walk × Bounded z }
    ensures { result ≡ stepped aggregate walk z }
{
    let cnv = types::codes::flag_code(run_ends(aggregate, walk.run, z));
    let seq = types::codes::flag_code(is_seq_file(walk, z));
    Walk {
        number: walk.number + 1,
        expected: z.start + z.length,
        run: run_after(aggregate, walk, z),
        cnvs: walk.cnvs + cnv as usize,
        seqs: walk.seqs + seq as usize,
    }
}

// The number of cnv files where no zone comes any more: the run is finished too.
pub fn cnv_files(walk: Walk) -> usize
    requires { BoundedWalk walk }
    ensures { result ≡ cnv_files walk }
{
    let last = types::codes::flag_code(walk.run.active);
    walk.cnvs + last as usize
}
