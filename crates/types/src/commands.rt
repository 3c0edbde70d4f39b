// What a command moves, and whether it is a read or an open.
ghost use Rattle.std.specs.Prelude.{◌≡◌};
ghost use Rattle.types.specs.Commands.{movement_of, is_read, is_opening};

use crate::{CommandKind, Movement};

// Each command keeps its line, so that a new one is an error here (`movement_of` of the specs).
pub fn movement_of(k: CommandKind) -> Movement
    ensures { result ≡ movement_of k }
{
    match k {
        CommandKind::Read => Movement::Stays,
        CommandKind::Write => Movement::Advances,
        CommandKind::Reset => Movement::ToStart,
        CommandKind::Finish => Movement::ToEnd,
        CommandKind::Flush => Movement::Stays,
        CommandKind::Open => Movement::Stays,
        CommandKind::Close => Movement::Stays,
    }
}

pub fn is_read(k: CommandKind) -> bool
    ensures { result ≡ is_read k }
{
    k == CommandKind::Read
}

pub fn is_opening(k: CommandKind) -> bool
    ensures { result ≡ is_opening k }
{
    k == CommandKind::Open
}
