// What print writes into the row that is lent; a long print goes on in the next row.
#![tactic(auto)]

mod copying;
mod pen;

ghost use Rattle.std.specs.Prelude.{◌≡◌, ◌+◌, ◌-◌, ◌^◌, ◌<◌, ◌≤◌, [], ◌∷◌, length, drop, nat_lt};
ghost use Rattle.language.specs.Text.{or, as_text, joined, each};
ghost use Rattle.language.specs.Meaning.{printed};
ghost use Rattle.store.specs.Values.{worth};
ghost use Rattle.regions.specs.Parts.{parts};
ghost use Rattle.rows.specs.Pens.{writing, put};
ghost use Rattle.rows.specs.Rows.{nth_text, worths, topmost, printed_line, over_row, went};
ghost use Rattle.rows.specs.Laws.{PrintLaws};

use crate::pen::Pen;
use regions::Memory;
use regions::cells::stacked;
use regions::fields::Place;
use regions::lines::line_window;
use regions::texts::text_view;
use store::bytes::Bytes;
use store::cells::Value;
use store::decimal::decimal_of;

// How many bytes a row has.
pub const ROW: usize = 4_096;

// How far a print has come: how many of its bytes are out, how many bytes of the row are used, and whether that was all. No Option: the bytes that are
// out are promised of a print that is finished, too.
#[derive(Clone, Copy)]
pub struct Printed {
    pub done: usize,
    pub used: usize,
    pub finished: bool,
}

// Writes the text of a value.
fn write_value(mem: &Memory, v: Value, pen: &mut Pen)
    ensures same_row { pen.new.row.ghost_name ≡ pen.old.row.ghost_name }
    ensures written { writing pen.new ≡ put (writing pen.old) (as_text (worth 77822 (parts mem.now).texts v)) }
{
    match v {
        Value::Unset => {}
        Value::Number(n) => pen.text(&decimal_of(n)),
        Value::Short(short) => pen.text(&short),
        Value::Text(handle) => pen.packed(&text_view(mem, handle)),
    }
}

// Writes the text of value i of those from cell `from` of the stack on, with a blank before it unless it is the first.
fn write_nth(mem: &Memory, from: usize, i: usize, pen: &mut Pen)
    requires { from + i < 2 ^ 64 }
    ensures same_row { pen.new.row.ghost_name ≡ pen.old.row.ghost_name }
    ensures written { writing pen.new ≡ put (writing pen.old) (nth_text (parts mem.now) from i) }
{
    if i > 0 {
        pen.byte(b' ');
    }
    write_value(mem, stacked(mem, from + i), pen);
}

// Writes the texts of n values from cell `from` of the stack on, with blanks between them; stops where the row is full.
fn write_values(mem: &Memory, from: usize, n: usize, pen: &mut Pen)
    requires { from + n < 2 ^ 64 }
    ensures same_row { pen.new.row.ghost_name ≡ pen.old.row.ghost_name }
    ensures written { writing pen.new ≡ put (writing pen.old) (joined (each as_text (worths (parts mem.now) from n))) }
{
    for i in 0..n {
        if pen.at >= pen.row.len() && pen.skip == 0 {
            return;
        }
        write_nth(mem, from, i, pen);
    }
}

// Ends a print that began at byte `used` of the row and byte `done` of its own: byte 10, and how far the print has come.
fn end_print(pen: &mut Pen, used: usize, done: usize) -> Printed
    requires { (used ≤ pen.old.at) × (done + ((put (writing pen.old) (10 ∷ [])).at - used) < 2 ^ 64) }
    ensures same_row { pen.new.row.ghost_name ≡ pen.old.row.ghost_name }
    ensures written { writing pen.new ≡ put (writing pen.old) (10 ∷ []) }
    ensures used { result.used ≡ pen.new.at }
    ensures done { result.done ≡ done + (pen.new.at - used) }
    ensures finished { result.finished ≡ or (nat_lt 0 pen.old.skip) (nat_lt pen.old.at (length pen.old.row.now)) }
{
    let finished = pen.skip > 0 || pen.at < pen.row.len();
    pen.byte(b'\n');
    Printed {
        done: done + (pen.at - used),
        used: pen.at,
        finished,
    }
}

// `done`, `out` and `used` of the next two are a pen's parts and not a pen: their signatures are for the caller who lends the row, and they make the pen; `out` is
// no array of 4,096, since the row that is lent may be longer. What the two share is the making of the pen and its end; what is written between differs.

// Writes the n topmost values of a stack of this depth, from byte `done` of the print on, as far as the row has room behind the bytes that are
// used.
pub fn print_values(
    mem: &Memory,
    depth: usize,
    n: usize,
    done: usize,
    out: &mut [u8],
    used: usize,
) -> Printed
    requires { (4096 ≤ length out.old) × (n < 2 ^ 32) }
    ensures row { out.new ≡ over_row out.old used (drop done (printed (topmost (parts mem.now) depth n))) }
    ensures came { result ≡ went (printed (topmost (parts mem.now) depth n)) done used }
{
    let (row, _) = out.split_at_mut(ROW);
    let mut pen = Pen {
        row,
        at: used,
        skip: done,
    };
    write_values(mem, depth.saturating_sub(n), n, &mut pen);
    end_print(&mut pen, used, done)
}

// Writes the line and byte 10, in the same way. Inline, since most lines are short.
#[inline]
pub fn print_line(mem: &Memory, place: Place, done: usize, out: &mut [u8], used: usize) -> Printed
    requires { 4096 ≤ length out.old }
    ensures row { out.new ≡ over_row out.old used (drop done (printed_line (parts mem.now) place)) }
    ensures came { result ≡ went (printed_line (parts mem.now) place) done used }
{
    let (row, _) = out.split_at_mut(ROW);
    let mut pen = Pen {
        row,
        at: used,
        skip: done,
    };
    pen.packed(&line_window(mem, place));
    end_print(&mut pen, used, done)
}

// A print that goes on over several rows.
pub fn print_laws_stand()
    ensures { PrintLaws }
{}
