// The fields of each kind, as docs/FORMAT.md lists them.
ghost use Rattle.std.specs.Prelude.{◌≡◌, MatchOption, map};
ghost use Rattle.std.proofs.Math.Option.{some, none};
ghost use Rattle.reader.specs.Kinds.{kind_fields};
ghost use Rattle.writer.specs.Table.{field_type};

use self::Field::{Password, Picture, StaffNumber, Text, Visibility};
use reader::{INFO_LIMIT, NAME_LIMIT, NOTE_LIMIT, TEXT_LIMIT, TITLE_LIMIT};

// A field: staff and post numbers are of one type, and so are passwords old and new; a string has a limit.
#[derive(Clone, Copy)]
pub enum Field {
    StaffNumber,
    Password,
    Picture,
    Visibility,
    Text(usize),
}

// An unknown kind has none. A kind is a number, as C passes it. That a list is that of a kind (`AreOfKind`) stays a clause of the three functions that go
// over one: a struct round the slice would be made here alone, and each of them would take it apart again.
pub(crate) fn fields_of(kind: u32) -> Option<&'static [Field]>
    ensures { MatchOption result (kind_fields kind ≡ none) (λ fields. kind_fields kind ≡ some (map field_type fields.now)) }
{
    match kind {
        0x0101 => Some(&[StaffNumber, Password]),
        0x0201 => Some(&[StaffNumber, Text(NOTE_LIMIT)]),
        0x0202 => Some(&[StaffNumber, Password, StaffNumber, Password]),
        0x0203 => Some(&[StaffNumber, Password, StaffNumber, Text(TITLE_LIMIT)]),
        0x0204 => Some(&[StaffNumber, Password, StaffNumber, Text(NOTE_LIMIT)]),
        0x0205 => Some(&[StaffNumber, Password, StaffNumber]),
        0x0301 => Some(&[StaffNumber, Password, StaffNumber]),
        0x0401 => Some(&[
            StaffNumber,
            Password,
            Password,
            Text(NAME_LIMIT),
            Text(INFO_LIMIT),
        ]),
        0x0402 => Some(&[StaffNumber, Password, StaffNumber, Text(TITLE_LIMIT)]),
        0x0403 => Some(&[StaffNumber, Password, StaffNumber, Text(TEXT_LIMIT)]),
        0x0404 => Some(&[StaffNumber, Password, StaffNumber, Picture]),
        0x0405 => Some(&[StaffNumber, Password, StaffNumber, Visibility]),
        0x0503 => Some(&[StaffNumber, Password]),
        0x0501..=0x050a => Some(&[StaffNumber, Password, StaffNumber]),
        0x0601..=0x0605 => Some(&[StaffNumber, Password]),
        0x0606 => Some(&[StaffNumber, Password, StaffNumber]),
        _ => None,
    }
}
