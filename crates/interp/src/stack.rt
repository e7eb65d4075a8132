// The stack of values. Each of its values holds its text, if it has one.
ghost use Rattle.std.specs.Prelude.{◌≡◌, ◌+◌, ◌-◌, length, Ok};
ghost use Rattle.store.specs.declared.cells.Value.TheVariants.{Number};
ghost use Rattle.regions.specs.Parts.{parts};
ghost use Rattle.interp.specs.Outcomes.{On, came};
ghost use Rattle.interp.specs.Turns.{says, stacking, placed, after, top_of, under_of, pushed, replaced, replaced_two, dropped};

use crate::registers::Registers;
use crate::{Refusal, Turn};
use regions::Memory;
use regions::cells::{CELLS, set_stacked, stacked};
use regions::texts::{hold_value, release_value};
use store::cells::Value;

// The value on top.
pub fn top(mem: &Memory, regs: &Registers) -> Value
    ensures { result ≡ top_of (parts mem.now) regs.now }
{
    stacked(mem, regs.depth.saturating_sub(1))
}

// The value under it.
pub fn under(mem: &Memory, regs: &Registers) -> Value
    ensures { result ≡ under_of (parts mem.now) regs.now }
{
    stacked(mem, regs.depth.saturating_sub(2))
}

// On behind the operation.
pub fn advance(regs: &mut Registers)
    ensures { regs.new ≡ placed regs.old (after regs.old.pc) regs.old.depth }
{
    regs.pc = regs.pc.wrapping_add(1);
}

// A number comes onto the stack; there is no text to hold. Apart from `push` for speed: as one function a loop that counts takes 1.27 times as long.
#[tactic(auto, unfolding(crate::specs::Turns::pushed))]
fn push_number(mem: &mut Memory, regs: &mut Registers, n: i64) -> Result<Turn, Refusal>
    ensures { says (came result) (parts mem.new) regs.new ≡ pushed (parts mem.old) regs.old (Number n) }
{
    if regs.depth >= CELLS {
        return Err(Refusal::NoRoom);
    }
    set_stacked(mem, regs.depth, Value::Number(n));
    regs.depth += 1;
    advance(regs);
    Ok(Turn::On)
}

// A value comes onto the stack.
#[tactic(auto, unfolding(crate::specs::Turns::pushed))]
pub fn push(mem: &mut Memory, regs: &mut Registers, v: Value) -> Result<Turn, Refusal>
    ensures { says (came result) (parts mem.new) regs.new ≡ pushed (parts mem.old) regs.old v }
{
    // most values are numbers
    if let Value::Number(n) = v {
        return push_number(mem, regs, n);
    }
    if regs.depth >= CELLS {
        return Err(Refusal::NoRoom);
    }
    hold_value(mem, v);
    set_stacked(mem, regs.depth, v);
    regs.depth += 1;
    advance(regs);
    Ok(Turn::On)
}

// A new value, whose only holder is the stack, comes in place of the top.
#[tactic(auto, unfolding(crate::specs::Turns::replaced))]
pub fn replace_top(mem: &mut Memory, regs: &mut Registers, v: Value) -> Turn
    ensures { says (came (Ok result)) (parts mem.new) regs.new ≡ replaced (parts mem.old) regs.old v }
{
    let old = top(mem, regs);
    release_value(mem, old);
    set_stacked(mem, regs.depth.saturating_sub(1), v);
    advance(regs);
    Turn::On
}

// A new value comes over the two on top, which hold no texts or were let go.
pub fn cover_two(mem: &mut Memory, regs: &mut Registers, v: Value) -> Turn
    ensures { says (came (Ok result)) (parts mem.new) regs.new ≡ says On (stacking (parts mem.old) (regs.old.depth - 2) v) (placed regs.old (after regs.old.pc) (regs.old.depth - 2 + 1)) }
{
    let at = regs.depth.saturating_sub(2);
    set_stacked(mem, at, v);
    regs.depth = at + 1;
    advance(regs);
    Turn::On
}

// A new value comes in place of the two on top.
#[tactic(auto, unfolding(crate::specs::Turns::replaced_two))]
pub fn replace_two(mem: &mut Memory, regs: &mut Registers, v: Value) -> Turn
    ensures { says (came (Ok result)) (parts mem.new) regs.new ≡ replaced_two (parts mem.old) regs.old v }
{
    let second = top(mem, regs);
    let first = under(mem, regs);
    release_value(mem, second);
    release_value(mem, first);
    cover_two(mem, regs, v)
}

// The top is gone.
#[tactic(auto, unfolding(crate::specs::Turns::dropped))]
pub fn drop_top(mem: &mut Memory, regs: &mut Registers) -> Turn
    ensures { says (came (Ok result)) (parts mem.new) regs.new ≡ dropped (parts mem.old) regs.old }
{
    let old = top(mem, regs);
    release_value(mem, old);
    regs.depth = regs.depth.saturating_sub(1);
    advance(regs);
    Turn::On
}
