// Finding a name and showing a file on a mounted volume: the checks that all calls share, but nothing that is outstanding stands in
// their way, and nothing changes.
#![tactic(auto)]

ghost use Rattle.std.specs.Prelude.{◌≡◌};
ghost use Rattle.inspect.specs.Find.{found_file, find_of};
ghost use Rattle.inspect.specs.Show.{less_writing, mode_shown, shown, show_of, show_by};

use types::{Access, FileKind, Mount, Refusal, Row};

// The bits of a mode that let owner, group and others write.
const WRITE_BITS: u32 = 0o222;

fn found_file(
    kind: FileKind,
    number: u32,
    file: Result<Row, Refusal>,
) -> Result<(FileKind, u32), Refusal>
    ensures { result ≡ found_file kind number file }
{
    file?;
    Ok((kind, number))
}

// The file of a name.
#[tactic(auto, using(crate::proofs::Finding::find_unnamed, crate::proofs::Finding::find_none, crate::proofs::Finding::find_file))]
pub fn find(m: Mount, cnv: &[u64], seq: &[u64], name: &[u8]) -> Result<(FileKind, u32), Refusal>
    ensures { result ≡ find_of m cnv.now seq.now name.now }
{
    if !checks::counts_fit(m, cnv.len(), seq.len()) {
        return Err(Refusal::Impossible);
    }
    let Some((kind, number)) = names::name_read(name) else {
        return Err(Refusal::NoFile);
    };
    let Some(slot) = checks::lookup_of(m, cnv, seq, kind, number) else {
        return Err(Refusal::NoFile);
    };
    found_file(kind, number, checks::sound_slot(m, kind, slot))
}

fn less_writing(mode: u32) -> u32
    ensures { result ≡ less_writing mode }
{
    mode - (mode & WRITE_BITS)
}

fn mode_shown(readonly: bool, a: Access, mode: u32) -> u32
    ensures { result ≡ mode_shown readonly a mode }
{
    match a {
        Access::Nothing => 0,
        Access::Read => less_writing(mode),
        Access::Write => { if readonly { less_writing(mode) } else { mode } }
    }
}

fn shown(m: Mount, file: Result<Row, Refusal>) -> Result<(Row, u32), Refusal>
    ensures { result ≡ shown m file }
{
    let row = file?;
    Ok((row, mode_shown(m.readonly, row.access, m.volume.mode)))
}

// A file's row, and the mode that it is shown with.
#[tactic(auto, using(checks::proofs::Laws::file_counts, checks::proofs::Laws::file_none, checks::proofs::Laws::file_found))]
pub fn show(
    m: Mount,
    cnv: &[u64],
    seq: &[u64],
    kind: FileKind,
    number: u32,
) -> Result<(Row, u32), Refusal>
    ensures { result ≡ show_of m cnv.now seq.now kind number }
{
    if !checks::counts_fit(m, cnv.len(), seq.len()) {
        return Err(Refusal::Impossible);
    }
    let Some(slot) = checks::lookup_of(m, cnv, seq, kind, number) else {
        return Err(Refusal::NoFile);
    };
    shown(m, checks::sound_slot(m, kind, slot))
}

// The same of a file whose kind is given as a number.
// The kind stays a number: the specs answer on any, and 1 on those above 1 (`show_by`).
#[tactic(auto, unfolding(crate::specs::Show::show_by))]
pub fn show_by(
    m: Mount,
    cnv: &[u64],
    seq: &[u64],
    kind: u64,
    number: u32,
) -> Result<(Row, u32), Refusal>
    ensures { result ≡ show_by m cnv.now seq.now kind number }
{
    if types::codes::is_kind(kind) {
        show(m, cnv, seq, types::codes::kind_from(kind), number)
    } else {
        Err(checks::no_kind(m, cnv.len(), seq.len()))
    }
}
