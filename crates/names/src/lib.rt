// What a name says: `cnv/` or `seq/`, and a decimal without a leading zero.
#![tactic(auto)]

ghost use Rattle.std.specs.Prelude.{[], ◌∷◌};
ghost use Rattle.names.specs.Facts.{KindTells, NumberTells, NameTells};

use types::FileKind;

// The bytes of `cnv/` and of `seq/`.
const PREFIX_BYTES: usize = 4;

// The kind that the first four bytes of a name tell.
fn kind_read(bytes: &[u8]) -> Option<FileKind>
    ensures { KindTells bytes.now result }
{
    match bytes {
        b"cnv/" => Some(FileKind::Conventional),
        b"seq/" => Some(FileKind::Sequential),
        _ => None,
    }
}

// The number of a decimal. It stops at the first byte that makes it one of no file: no more than six bytes are read, however long the text is.
fn number_read(text: &[u8]) -> Option<u32>
    ensures { NumberTells text.now result }
{
    let mut value: u32 = 0;
    for (i, &byte) in text.iter().enumerate() {
        if !byte.is_ascii_digit() {
            return None;
        }
        // a leading zero
        if (0 < i) & (value == 0) {
            return None;
        }
        value = value * 10 + u32::from(byte - b'0');
        if types::units::MOST_FILES <= value {
            return None;
        }
    }
    if text.is_empty() {
        return None;
    }
    Some(value)
}

// What a name says: a file, or nothing.
pub fn name_read(name: &[u8]) -> Option<(FileKind, u32)>
    ensures { NameTells name.now result }
{
    let (prefix, digits) = name.split_at_checked(PREFIX_BYTES)?;
    let kind = kind_read(prefix)?;
    let number = number_read(digits)?;
    Some((kind, number))
}
