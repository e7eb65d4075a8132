// One turn: an operation of the code, or what comes between two runs through it.
ghost use Rattle.std.specs.Prelude.{◌≡◌, ◌≤◌, length};
ghost use Rattle.regions.specs.Parts.{parts};
ghost use Rattle.interp.specs.Outcomes.{came};
ghost use Rattle.interp.specs.Turns.{says};
ghost use Rattle.engine.specs.Dispatch.{performed, text_printed, turned, turned_text, lent_after};

use crate::prints::{begin_line, begin_values};
use crate::setting::set_field;
use interp::between::next_line;
use interp::ops::Op;
use interp::registers::Registers;
use interp::{Refusal, Turn, dispatch};
use regions::Memory;

// An operation: a match on a closed kind and no table of functions.
fn perform(mem: &mut Memory, regs: &mut Registers, op: Op, out: &mut [u8]) -> Result<Turn, Refusal>
    requires { 4096 ≤ length out.old }
    ensures did { says (came result) (parts mem.new) regs.new ≡ performed op (parts mem.old) regs.old }
    ensures row { out.new ≡ lent_after out.old regs.old.used (text_printed op (parts mem.old) regs.old) }
{
    match op {
        Op::SetField => set_field(mem, regs),
        Op::PrintLine => Ok(begin_line(mem, regs, out)),
        Op::PrintValues(n) => Ok(begin_values(mem, regs, n, out)),
        quiet => dispatch::perform(mem, regs, quiet),
    }
}

// One turn. What it prints goes behind what is used of the row, as much of it as has room.
#[tactic(auto, unfolding(crate::specs::Dispatch::turned, crate::specs::Dispatch::turned_text))]
pub fn turn(mem: &mut Memory, regs: &mut Registers, out: &mut [u8]) -> Result<Turn, Refusal>
    requires { 4096 ≤ length out.old }
    ensures did { says (came result) (parts mem.new) regs.new ≡ turned (parts mem.old) regs.old }
    ensures row { out.new ≡ lent_after out.old regs.old.used (turned_text (parts mem.old) regs.old) }
{
    if regs.running {
        let op = dispatch::fetch(mem, regs);
        perform(mem, regs, op, out)
    } else {
        next_line(mem, regs)
    }
}
