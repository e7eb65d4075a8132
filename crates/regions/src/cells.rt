// The regions of cells: slots, which have variables and constants, and the stack. Each has a pair of functions of its own: one pair for both would need a
// trait with two instances and their laws in place of four lines.
ghost use Rattle.std.specs.Prelude.{◌≡◌, ℕ, length, slice_index_or};
ghost use Rattle.store.specs.declared.cells.Value.TheVariants.{Unset};
ghost use Rattle.store.specs.Values.{decoded, saved};
ghost use Rattle.regions.specs.Parts.{parts, with_slots, with_stack};

use crate::Memory;
use store::cells::{Value, load, save};

// How many slots there are, and how many values fit on the stack.
pub const SLOTS: usize = 4_096;

pub const CELLS: usize = 16_416;

const FROM: usize = 12_416;

const STACK: usize = 20_608;

const TO: usize = 53_440;

// The value in a slot; Unset behind the end.
pub fn slot(mem: &Memory, i: usize) -> Value
    ensures { result ≡ slice_index_or (decoded (parts mem.now).slots) i Unset }
{
    load(&mem[FROM..STACK], i)
}

// A value goes into a slot; behind the end nothing is changed.
pub fn set_slot(mem: &mut Memory, i: usize, v: Value)
    ensures { parts mem.new ≡ with_slots (parts mem.old) (saved (parts mem.old).slots i v) }
{
    save(&mut mem[FROM..STACK], i, v);
}

// Value i of the stack, from its bottom; Unset behind the end.
pub fn stacked(mem: &Memory, i: usize) -> Value
    ensures { result ≡ slice_index_or (decoded (parts mem.now).stack) i Unset }
{
    load(&mem[STACK..TO], i)
}

// A value goes onto the stack at a place; behind the end nothing is changed.
pub fn set_stacked(mem: &mut Memory, i: usize, v: Value)
    ensures { parts mem.new ≡ with_stack (parts mem.old) (saved (parts mem.old).stack i v) }
{
    save(&mut mem[STACK..TO], i, v);
}
