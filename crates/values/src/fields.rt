// Where the fields of a text stand, and which numbers are those of fields and exits.
ghost use Rattle.std.specs.Prelude.{◌≡◌, ◌+◌, ◌^◌, ◌<◌, IfSome};
ghost use Rattle.language.specs.Meaning.{State, field_number, exit_with};
ghost use Rattle.store.specs.Numbers.{number};
ghost use Rattle.values.specs.Fields.{NextField, FieldsTold, listed, exited};

use crate::texts::{Blank, Solid, past};
use store::bytes::Bytes;
pub use store::place::Place;

// The numbers of fields go from 0, which is the whole line, to this one.
const LAST_FIELD: i64 = 1000;

// The numbers that a run may end with go from 0 to this one.
const LAST_EXIT: i64 = 255;

// The first field that begins at `from` or behind it.
pub fn next_field<T: Bytes>(t: &T, from: usize) -> Option<Place>
    ensures next { NextField (T.Bytes.bytes t.now) from result }
    ensures ends { IfSome result (λ p. p.start + p.len < 2 ^ 64) }
{
    let start = past::<Blank, T>(t, from);
    let end = past::<Solid, T>(t, start);
    if end > start {
        Some(Place {
            start,
            len: end - start,
        })
    } else {
        None
    }
}

// Fields that are looked for from the end of the one before are the fields of the text.
pub fn fields_stand()
    ensures { FieldsTold }
{}

// A number as that of a field.
pub fn field_number(n: i64) -> Option<usize>
    ensures { listed result ≡ field_number (number n) }
{
    match n {
        0..=LAST_FIELD => Some(n as usize),
        _ => None,
    }
}

// A number as that with which a run ends.
pub fn exit_number(n: i64) -> Option<u64>
    ensures { (s : State) → exited result s ≡ exit_with (number n) s }
{
    match n {
        0..=LAST_EXIT => Some(n as u64),
        _ => None,
    }
}
