// Texts of values, and two joined to one.
ghost use Rattle.std.specs.Prelude.{◌≡◌, ℕ, ◌+◌, ◌≤◌, ◌++◌, length};
ghost use Rattle.store.specs.Words.{bytes_of, window};
ghost use Rattle.store.specs.Space.{written};
ghost use Rattle.regions.specs.Parts.{parts, with_texts};
ghost use Rattle.interp.specs.Outcomes.{came};
ghost use Rattle.interp.specs.Turns.{says};
ghost use Rattle.interp.specs.Texts.{text_in, joined_long, joined};

use crate::registers::Registers;
use crate::stack::{cover_two, top, under};
use crate::worth::no_bytes;
use crate::{LONGEST, Refusal, Turn};
use regions::Memory;
use regions::texts::{fill_text, join_text, new_handle, release_value, text_view};
use store::bytes::Bytes;
use store::cells::Value;
use store::copying::short_of;
use store::decimal::decimal_of;
use store::packed::{Packed, word_at};
use store::short::{self, Short, low_bytes};
use store::texts::Handle;

// How many bytes the text of a value has. Here and wherever the text of a value is asked for there is an arm for each view. An enum of the views that
// implements `Bytes` was tried and proves, but is no plainer: it borrows memory, which `put_text` and engine's `lay_value` write; where a number is taken as
// one, that keeps its arm; and it is asked at each byte which view it is.
#[tactic(auto, unfolding(language::specs::Text::as_text))]
pub fn text_len(mem: &Memory, v: Value) -> usize
    ensures { result ≡ length (text_in (parts mem.now) v) }
{
    match v {
        Value::Unset => 0,
        Value::Number(n) => decimal_of(n).len(),
        Value::Short(short) => short.len(),
        Value::Text(handle) => text_view(mem, handle).len(),
    }
}

// The short text of up to eight bytes that lie packed, read at once unless the words end near them.
pub fn short_packed(t: Packed) -> Short
    requires { length (window t.from t.len t.words.now) ≤ 8 }
    ensures { bytes_of result.len result.word ≡ window t.entry.from t.entry.len t.entry.words.now }
{
    if t.from / 8 + 1 >= t.words.len() {
        return short_of(&t);
    }
    Short {
        word: low_bytes(word_at(t.words, t.from), t.len),
        len: t.len,
    }
}

// The text of a value, where it has up to eight bytes.
#[tactic(auto, unfolding(language::specs::Text::as_text))]
fn as_short(mem: &Memory, v: Value) -> Short
    requires { length (text_in (parts mem.now) v) ≤ 8 }
    ensures { bytes_of result.len result.word ≡ text_in (parts mem.now) v }
{
    match v {
        Value::Unset => no_bytes(),
        Value::Number(n) => short_of(&decimal_of(n)),
        Value::Short(short) => short,
        Value::Text(handle) => short_of(&text_view(mem, handle)),
    }
}

// Two short texts as one, where it is short too.
fn join_shorts(a: Short, b: Short) -> Short
    requires { a.len + b.len ≤ 8 }
    ensures { bytes_of result.len result.word ≡ bytes_of a.len a.word ++ bytes_of b.len b.word }
{
    if b.len == 0 {
        return a;
    }
    Short {
        word: a.word + (b.word << (8 * a.len)),
        len: a.len + b.len,
    }
}

// The text of a value goes into a text, from byte `at` on.
#[tactic(auto, unfolding(language::specs::Text::as_text, store::specs::Space::written, store::specs::Words::put_bytes))]
fn put_text(mem: &mut Memory, h: Handle, at: usize, v: Value)
    ensures { parts mem.new ≡ with_texts (parts mem.old) (written 77822 (parts mem.old).texts h.index at (text_in (parts mem.old) v)) }
{
    match v {
        Value::Unset => {}
        Value::Number(n) => fill_text(mem, h, at, &decimal_of(n)),
        Value::Short(short) => fill_text(mem, h, at, &short),
        Value::Text(from) => join_text(mem, h, at, from),
    }
}

// A new text of so many bytes comes in place of the two on top, of which the first has m bytes.
fn join_long(mem: &mut Memory, regs: &mut Registers, m: usize, size: usize) -> Result<Turn, Refusal>
    ensures { says (came result) (parts mem.new) regs.new ≡ joined_long (parts mem.old) regs.old m size }
{
    let first = under(mem, regs);
    let second = top(mem, regs);
    let handle = new_handle(mem, size).ok_or(Refusal::NoRoom)?;
    put_text(mem, handle, 0, first);
    put_text(mem, handle, m, second);
    release_value(mem, second);
    release_value(mem, first);
    Ok(cover_two(mem, regs, Value::Text(handle)))
}

// The texts of the two on top become one.
pub fn join(mem: &mut Memory, regs: &mut Registers) -> Result<Turn, Refusal>
    ensures { says (came result) (parts mem.new) regs.new ≡ joined (parts mem.old) regs.old }
{
    let first = under(mem, regs);
    let second = top(mem, regs);
    let m = text_len(mem, first);
    let size = m.saturating_add(text_len(mem, second));
    if size > LONGEST {
        return Err(Refusal::TooLong);
    }
    if size > short::LONGEST {
        return join_long(mem, regs, m, size);
    }
    let short = join_shorts(as_short(mem, first), as_short(mem, second));
    release_value(mem, second);
    release_value(mem, first);
    Ok(cover_two(mem, regs, Value::Short(short)))
}
