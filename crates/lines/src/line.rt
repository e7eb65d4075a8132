// A line with its fields.
ghost use Rattle.std.specs.Prelude.{◌≡◌, ℕ, ◌+◌, ◌<◌, ◌≤◌, length};
ghost use Rattle.regions.specs.Parts.{parts};
ghost use Rattle.lines.specs.Lines.{nth_place};

use regions::Memory;
use regions::fields::{Place, field_at};

// The region of fields has the places of its fields, counted from where the line begins.
#[derive(Clone, Copy)]
pub struct Line {
    pub place: Place,
    pub fields: usize,
}

// Where field n is, the first being 1; an empty place if there is none.
pub fn nth_field(mem: &Memory, line: Line, n: usize) -> Place
    ensures { result ≡ nth_place (parts mem.now).fields line n }
{
    if n == 0 || line.fields < n {
        return Place {
            start: line.place.start,
            len: 0,
        };
    }
    let field = field_at(mem, n - 1);
    Place {
        start: line.place.start.saturating_add(field.start),
        len: field.len,
    }
}
