// Arithmetic on what is on the stack.
ghost use Rattle.std.specs.Prelude.{◌≡◌, length};
ghost use Rattle.values.specs.Numbers.{operation};
ghost use Rattle.regions.specs.Parts.{parts};
ghost use Rattle.store.specs.declared.cells.Value.TheVariants.{Number};
ghost use Rattle.interp.specs.Outcomes.{came};
ghost use Rattle.interp.specs.Turns.{says};
ghost use Rattle.interp.specs.Numbers.{refusal_of, figured, figured_one};

use crate::registers::Registers;
use crate::stack::{cover_two, replace_top, top, under};
use crate::worth::number_in;
use crate::{Refusal, Turn};
use regions::Memory;
use regions::texts::release_value;
use store::cells::Value;
use values::numbers::{Arithmetic, Trouble, calculate, negate};

impl From<Trouble> for Refusal {
    ghost from_gives = { λ t r. r ≡ refusal_of t };

    fn from(trouble: Trouble) -> Refusal {
        match trouble {
            Trouble::ByZero => Refusal::ByZero,
            Trouble::TooLarge => Refusal::OutOfBounds,
        }
    }
}

// A number from the two on top.
pub fn reckon(mem: &mut Memory, regs: &mut Registers, c: Arithmetic) -> Result<Turn, Refusal>
    ensures { says (came result) (parts mem.new) regs.new ≡ figured (operation c) (parts mem.old) regs.old }
{
    let first = under(mem, regs);
    let second = top(mem, regs);
    let a = number_in(mem, first);
    let b = number_in(mem, second);
    let n = calculate(c, a, b)?;
    release_value(mem, second);
    release_value(mem, first);
    Ok(cover_two(mem, regs, Value::Number(n)))
}

// The opposite of the number on top.
pub fn oppose(mem: &mut Memory, regs: &mut Registers) -> Result<Turn, Refusal>
    ensures { says (came result) (parts mem.new) regs.new ≡ figured_one 1 (parts mem.old) regs.old }
{
    let v = top(mem, regs);
    let a = number_in(mem, v);
    let n = negate(a).ok_or(Refusal::OutOfBounds)?;
    Ok(replace_top(mem, regs, Value::Number(n)))
}
