// What a command that was done well makes of its file's row.
ghost use Rattle.std.specs.Prelude.{◌≡◌, ◌+◌, ◌<◌, ◌^◌};
ghost use Rattle.recovery.specs.Success.{appended, size_after, row_after};

use types::{Command, FileKind, Movement, Row};

fn appended(kind: FileKind, size: u64, length: u64) -> u64
    requires { size + length < 2 ^ 64 }
    ensures { result ≡ appended kind size length }
{
    match kind {
        FileKind::Conventional => size,
        FileKind::Sequential => size + length,
    }
}

fn size_after(kind: FileKind, movement: Movement, length: u64, row: Row) -> u64
    requires { row.size + length < 2 ^ 64 }
    ensures { result ≡ size_after kind movement length row }
{
    match movement {
        Movement::Stays => row.size,
        Movement::Advances => appended(kind, row.size, length),
        Movement::ToStart => 0,
        Movement::ToEnd => row.capacity,
    }
}

pub fn row_after(kind: FileKind, done: Command, row: Row) -> Row
    requires { row.size + done.length < 2 ^ 64 }
    ensures { result ≡ row_after kind done row }
{
    let movement = types::commands::movement_of(done.kind);
    let size = size_after(kind, movement, done.length, row);
    table::with_size(row, size)
}
