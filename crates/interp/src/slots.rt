// Variables, constants and counts.
ghost use Rattle.std.specs.Prelude.{◌≡◌, length, Ok};
ghost use Rattle.regions.specs.Parts.{parts};
ghost use Rattle.store.specs.declared.cells.Value.TheVariants.{Number};
ghost use Rattle.interp.specs.Outcomes.{On, came};
ghost use Rattle.interp.specs.Turns.{says, releasing, placed, after};
ghost use Rattle.interp.specs.Slots.{slot_of, slotting, loaded, kept_in, line_counted, fields_counted};

use crate::registers::Registers;
use crate::stack::{advance, push, top};
use crate::{Refusal, Turn};
use regions::Memory;
use regions::cells::{set_slot, slot};
use regions::texts::{hold_value, release_value};
use store::cells::Value;

// The value of a slot comes onto the stack.
#[tactic(auto, unfolding(crate::specs::Slots::loaded))]
pub fn load_slot(mem: &mut Memory, regs: &mut Registers, i: usize) -> Result<Turn, Refusal>
    ensures { says (came result) (parts mem.new) regs.new ≡ loaded (parts mem.old) regs.old i }
{
    let v = slot(mem, i);
    push(mem, regs, v)
}

// A number goes into a slot; there is no text to hold. Apart from `save_slot` for speed: as one function a loop that counts takes 1.26 times as long.
fn save_number(mem: &mut Memory, regs: &mut Registers, i: usize, n: i64) -> Turn
    ensures { says (came (Ok result)) (parts mem.new) regs.new ≡ says On (slotting (releasing (parts mem.old) (slot_of (parts mem.old) i)) i (Number n)) (placed regs.old (after regs.old.pc) regs.old.depth) }
{
    let before = slot(mem, i);
    release_value(mem, before);
    set_slot(mem, i, Value::Number(n));
    advance(regs);
    Turn::On
}

// The top goes into a slot too. The new value is held before the old one is let go, since they may be one text.
pub fn save_slot(mem: &mut Memory, regs: &mut Registers, i: usize) -> Turn
    ensures { says (came (Ok result)) (parts mem.new) regs.new ≡ kept_in (parts mem.old) regs.old i }
{
    let v = top(mem, regs);
    if let Value::Number(n) = v {
        return save_number(mem, regs, i, n);
    }
    let old = slot(mem, i);
    hold_value(mem, v);
    release_value(mem, old);
    set_slot(mem, i, v);
    advance(regs);
    Turn::On
}

// How many lines there were.
#[tactic(auto, unfolding(crate::specs::Slots::line_counted))]
pub fn count_lines(mem: &mut Memory, regs: &mut Registers) -> Result<Turn, Refusal>
    ensures { says (came result) (parts mem.new) regs.new ≡ line_counted (parts mem.old) regs.old }
{
    let v = Value::Number(regs.count.cast_signed());
    push(mem, regs, v)
}

// How many fields the line has.
#[tactic(auto, unfolding(crate::specs::Slots::fields_counted))]
pub fn count_fields(mem: &mut Memory, regs: &mut Registers) -> Result<Turn, Refusal>
    ensures { says (came result) (parts mem.new) regs.new ≡ fields_counted (parts mem.old) regs.old }
{
    let n = regs.line.fields as u64;
    push(mem, regs, Value::Number(n.cast_signed()))
}
