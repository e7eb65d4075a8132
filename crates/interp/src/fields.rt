// Fields of the line.
ghost use Rattle.std.specs.Prelude.{◌≡◌, ℕ, ◌+◌, ◌*◌, ◌<◌, ◌≤◌, length};
ghost use Rattle.store.specs.Words.{window};
ghost use Rattle.store.specs.Space.{written};
ghost use Rattle.store.specs.Values.{made};
ghost use Rattle.regions.specs.Parts.{parts, with_texts};
ghost use Rattle.interp.specs.Outcomes.{came};
ghost use Rattle.interp.specs.Turns.{says};
ghost use Rattle.interp.specs.Fields.{field_place, field_got};

use crate::registers::Registers;
use crate::stack::{replace_top, top};
use crate::texts::short_packed;
use crate::worth::number_in;
use crate::{Refusal, Turn};
use lines::cutting::len_at;
use lines::line::{Line, nth_field};
use regions::Memory;
use regions::fields::Place;
use regions::lines::line_window;
use regions::texts::{fill_text, new_handle};
use store::bytes::Bytes;
use store::cells::Value;
use store::copying::copy_out;
use store::lent::Lent;
use store::short::LONGEST;
use store::texts::Handle;
use values::fields::field_number;

// How many bytes are copied at once, from the region of lines into a text here, and in engine's `lay_text` from a text into the region of lines.
pub const CHUNK: usize = 64;

// A few bytes of the region of lines go into a text, from byte `at` on.
fn copy_chunk(mem: &mut Memory, h: Handle, at: usize, place: Place)
    requires { place.len ≤ 64 }
    ensures { parts mem.new ≡ with_texts (parts mem.old) (written 77822 (parts mem.old).texts h.index at (window place.start place.len (parts mem.old).lines)) }
{
    let mut row = [0u8; CHUNK];
    let n = copy_out(&line_window(mem, place), 0, &mut row, 0);
    fill_text(mem, h, at, &Lent { piece: &row[0..n] });
}

// The bytes at a place of the region of lines go into a text.
fn copy_line(mem: &mut Memory, h: Handle, place: Place)
    ensures { parts mem.new ≡ with_texts (parts mem.old) (written 77822 (parts mem.old).texts h.index 0 (window place.start place.len (parts mem.old).lines)) }
{
    let n = len_at(place);
    for at in (0..n).step_by(CHUNK) {
        let len = CHUNK.min(n - at);
        let start = place.start + at;
        copy_chunk(mem, h, at, Place { start, len });
    }
}

// A new value with the bytes at a place of the region of lines, or none, if there is no room.
fn line_value(mem: &mut Memory, place: Place) -> Option<Value>
    ensures memory { parts mem.new ≡ with_texts (parts mem.old) (made 20480 77822 (parts mem.old).texts (window place.start place.len (parts mem.old).lines)).space }
    ensures value { result ≡ (made 20480 77822 (parts mem.old).texts (window place.start place.len (parts mem.old).lines)).value }
{
    let n = len_at(place);
    if n <= LONGEST {
        return Some(Value::Short(short_packed(line_window(mem, place))));
    }
    let handle = new_handle(mem, n)?;
    copy_line(mem, handle, place);
    Some(Value::Text(handle))
}

// Where field k of a line is; field 0 is the line.
#[tactic(auto, unfolding(crate::specs::Fields::field_place))]
fn place_of(mem: &Memory, line: Line, k: usize) -> Place
    ensures { result ≡ field_place (parts mem.now).fields line k }
{
    if k == 0 {
        line.place
    } else {
        nth_field(mem, line, k)
    }
}

// The field whose number is on top.
pub fn get_field(mem: &mut Memory, regs: &mut Registers) -> Result<Turn, Refusal>
    ensures { says (came result) (parts mem.new) regs.new ≡ field_got (parts mem.old) regs.old }
{
    let v = top(mem, regs);
    let n = number_in(mem, v);
    let k = field_number(n).ok_or(Refusal::NoSuchNumber)?;
    let place = place_of(mem, regs.line, k);
    let field = line_value(mem, place).ok_or(Refusal::NoRoom)?;
    Ok(replace_top(mem, regs, field))
}
