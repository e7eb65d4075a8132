// The setting of fields: the value stays on the stack, and the field's number goes. Where it is refused, nothing is changed.
ghost use Rattle.std.specs.Prelude.{◌≡◌, ◌+◌, ◌^◌, ◌<◌, [], length, take, drop, Ok};
ghost use Rattle.language.specs.Text.{fields_from};
ghost use Rattle.store.specs.Words.{put_bytes};
ghost use Rattle.store.specs.Space.{text_of};
ghost use Rattle.regions.specs.Parts.{parts, with_lines};
ghost use Rattle.interp.specs.Outcomes.{came};
ghost use Rattle.interp.specs.Turns.{says};
ghost use Rattle.interp.specs.Texts.{text_in};
ghost use Rattle.engine.specs.Setting.{relined, line_set, nth_set, field_set};

use interp::fields::CHUNK;
use interp::registers::Registers;
use interp::stack::{drop_top, top, under};
use interp::texts::text_len;
use interp::worth::{no_bytes, number_in};
use interp::{LONGEST, Refusal, Turn};
use lines::building::{build, free_buffer};
use lines::cutting::recut;
use lines::line::{Line, nth_field};
use regions::Memory;
use regions::fields::{FIELDS, Place};
use regions::lines::put_text;
use regions::texts::text_view;
use store::bytes::Bytes;
use store::cells::Value;
use store::copying::copy_out;
use store::decimal::decimal_of;
use store::lent::Lent;
use store::texts::Handle;
use values::fields::{field_number, next_field};

// How many fields a text has.
fn count_fields<T: Bytes>(t: &T) -> usize
    ensures { result ≡ length (fields_from [] (T.Bytes.bytes t.now)) }
{
    let mut n = 0;
    let mut from = 0;
    while let Some(field) = next_field(t, from) {
        n += 1;
        from = field.start + field.len;
    }
    n
}

// How many fields the text of a value has.
#[tactic(auto, unfolding(language::specs::Text::as_text))]
fn fields_in(mem: &Memory, v: Value) -> usize
    ensures { result ≡ length (fields_from [] (text_in (parts mem.now) v)) }
{
    match v {
        Value::Unset => count_fields(&no_bytes()),
        Value::Number(n) => count_fields(&decimal_of(n)),
        Value::Short(short) => count_fields(&short),
        Value::Text(handle) => count_fields(&text_view(mem, handle)),
    }
}

// The next few bytes of a text, from byte `at` of it on, go into the region of lines, from byte `to` on.
fn lay_chunk(mem: &mut Memory, h: Handle, at: usize, to: usize)
    ensures { parts mem.new ≡ with_lines (parts mem.old) (put_bytes (parts mem.old).lines to (take 64 (drop at (text_of 77822 (parts mem.old).texts h.index)))) }
{
    let mut row = [0u8; CHUNK];
    let n = copy_out(&text_view(mem, h), at, &mut row, 0);
    put_text(mem, to, &Lent { piece: &row[0..n] });
}

// The bytes of a text go into the region of lines, from byte `to` on. Beside interp's `copy_line`, which goes the other way.
fn lay_text(mem: &mut Memory, h: Handle, to: usize)
    requires { to < 2 ^ 63 }
    ensures { parts mem.new ≡ with_lines (parts mem.old) (put_bytes (parts mem.old).lines to (text_of 77822 (parts mem.old).texts h.index)) }
{
    let n = text_view(mem, h).len();
    for at in (0..n).step_by(CHUNK) {
        lay_chunk(mem, h, at, to + at);
    }
}

// The text of a value goes into the region of lines, from byte `to` on.
#[tactic(auto, unfolding(language::specs::Text::as_text, store::specs::Words::put_bytes))]
fn lay_value(mem: &mut Memory, v: Value, to: usize)
    requires { to < 2 ^ 63 }
    ensures { parts mem.new ≡ with_lines (parts mem.old) (put_bytes (parts mem.old).lines to (text_in (parts mem.old) v)) }
{
    match v {
        Value::Unset => {}
        Value::Number(n) => put_text(mem, to, &decimal_of(n)),
        Value::Short(short) => put_text(mem, to, &short),
        Value::Text(handle) => lay_text(mem, handle, to),
    }
}

// A line that was made anew is the current one; the field's number goes.
fn take_line(mem: &mut Memory, regs: &mut Registers, line: Line) -> Turn
    ensures { says (came (Ok result)) (parts mem.new) regs.new ≡ relined (parts mem.old) regs.old line }
{
    regs.line = line;
    drop_top(mem, regs)
}

// `$0` becomes the text of a value, beside the `set_line` of lines: that takes bytes lent from elsewhere, and here they may lie in the memory that is written.
// The same holds of `set_nth`. What may be refused is looked for before anything is changed.
fn set_line(mem: &mut Memory, regs: &mut Registers, v: Value) -> Result<Turn, Refusal>
    ensures { says (came result) (parts mem.new) regs.new ≡ line_set (parts mem.old) regs.old (text_in (parts mem.old) v) }
{
    let len = text_len(mem, v);
    if len > LONGEST {
        return Err(Refusal::TooLong);
    }
    if fields_in(mem, v) > FIELDS {
        return Err(Refusal::NoRoom);
    }
    let place = Place {
        start: free_buffer(regs.line),
        len,
    };
    lay_value(mem, v, place.start);
    let fields = recut(mem, place);
    Ok(take_line(mem, regs, Line { place, fields }))
}

// Field k, which is not 0, becomes the text of a value.
fn set_nth(mem: &mut Memory, regs: &mut Registers, k: usize, v: Value) -> Result<Turn, Refusal>
    ensures { says (came result) (parts mem.new) regs.new ≡ nth_set (parts mem.old) regs.old k (text_in (parts mem.old) v) }
{
    let len = text_len(mem, v);
    let line = build(mem, regs.line, k, len).ok_or(Refusal::TooLong)?;
    let gap = nth_field(mem, line, k);
    lay_value(mem, v, gap.start);
    Ok(take_line(mem, regs, line))
}

// The field whose number is on top becomes the value under it.
pub fn set_field(mem: &mut Memory, regs: &mut Registers) -> Result<Turn, Refusal>
    ensures { says (came result) (parts mem.new) regs.new ≡ field_set (parts mem.old) regs.old }
{
    let number = top(mem, regs);
    let n = number_in(mem, number);
    let k = field_number(n).ok_or(Refusal::NoSuchNumber)?;
    let v = under(mem, regs);
    if k == 0 {
        set_line(mem, regs, v)
    } else {
        set_nth(mem, regs, k, v)
    }
}
