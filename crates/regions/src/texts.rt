// The region of counted texts.
ghost use Rattle.std.specs.Prelude.{◌≡◌, ℕ, ◌^◌, ◌<◌, length};
ghost use Rattle.store.specs.Words.{window};
ghost use Rattle.store.specs.Space.{allocated, written, copied, emptied, text_of};
ghost use Rattle.store.specs.Values.{kept, let_go, made};
ghost use Rattle.regions.specs.Parts.{parts, with_texts};

use crate::Memory;
use store::bytes::Bytes;
use store::cells::{Value, drop_value, keep, new_text};
use store::packed::Packed;
use store::texts::{Handle, allocate, clear, copy_text, fill, view};

const FROM: usize = 94_976;

const TO: usize = 193_280;

// A region without texts.
pub fn clear_texts(mem: &mut Memory)
    ensures { parts mem.new ≡ with_texts (parts mem.old) (emptied 20480 (parts mem.old).texts) }
{
    clear(&mut mem[FROM..TO]);
}

// One holder more, if it is a longer text.
pub fn hold_value(mem: &mut Memory, v: Value)
    ensures { parts mem.new ≡ with_texts (parts mem.old) (kept 77822 (parts mem.old).texts v) }
{
    keep(&mut mem[FROM..TO], v);
}

// One holder less, if it is a longer text.
pub fn release_value(mem: &mut Memory, v: Value)
    ensures { parts mem.new ≡ with_texts (parts mem.old) (let_go 20480 77822 (parts mem.old).texts v) }
{
    drop_value(&mut mem[FROM..TO], v);
}

// A text of n bytes with one holder, or none, if there is no room.
pub fn new_handle(mem: &mut Memory, n: usize) -> Option<Handle>
    ensures memory { parts mem.new ≡ with_texts (parts mem.old) (allocated 20480 77822 (parts mem.old).texts n).space }
    ensures handle { result ≡ (allocated 20480 77822 (parts mem.old).texts n).handle }
{
    allocate(&mut mem[FROM..TO], n)
}

// A value with the bytes of a text that lies outside of the memory, or none, if there is no room.
pub fn new_value<T: Bytes>(mem: &mut Memory, t: &T) -> Option<Value>
    ensures memory { parts mem.new ≡ with_texts (parts mem.old) (made 20480 77822 (parts mem.old).texts (T.Bytes.bytes t.now)).space }
    ensures value { result ≡ (made 20480 77822 (parts mem.old).texts (T.Bytes.bytes t.now)).value }
{
    new_text(&mut mem[FROM..TO], t)
}

// The bytes of a text.
pub fn text_view(mem: &Memory, h: Handle) -> Packed<'_>
    ensures { window result.from result.len result.words.now ≡ text_of 77822 (parts mem.now).texts h.index }
{
    view(&mem[FROM..TO], h)
}

// Bytes from outside of the memory go into a text, from byte `at` on.
pub fn fill_text<T: Bytes>(mem: &mut Memory, h: Handle, at: usize, t: &T)
    ensures { parts mem.new ≡ with_texts (parts mem.old) (written 77822 (parts mem.old).texts h.index at (T.Bytes.bytes t.now)) }
{
    fill(&mut mem[FROM..TO], h, at, t);
}

// The bytes of one text go into another, from byte `at` on.
pub fn join_text(mem: &mut Memory, h: Handle, at: usize, from: Handle)
    ensures { parts mem.new ≡ with_texts (parts mem.old) (copied 77822 (parts mem.old).texts h.index at from.index) }
{
    copy_text(&mut mem[FROM..TO], h, at, from);
}
