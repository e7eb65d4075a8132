// Conditions, jumps and ends.
ghost use Rattle.std.specs.Prelude.{◌≡◌, length, Ok};
ghost use Rattle.language.specs.Text.{pick};
ghost use Rattle.regions.specs.Parts.{parts};
ghost use Rattle.interp.specs.Outcomes.{came};
ghost use Rattle.interp.specs.Turns.{says};
ghost use Rattle.interp.specs.Jumps.{judged, negated, jumped, taking, jumped_if, jumped_unless, between, exited};

use crate::registers::Registers;
use crate::stack::{drop_top, replace_top, top};
use crate::worth::{holds_in, number_in, truth};
use crate::{Refusal, Turn};
use regions::Memory;
use values::fields::exit_number;

// 1 if the top holds just if that is wanted, otherwise 0.
pub fn judge<const WANTED: bool>(mem: &mut Memory, regs: &mut Registers) -> Turn
    ensures { says (came (Ok result)) (parts mem.new) regs.new ≡ pick WANTED (judged (parts mem.old) regs.old) (negated (parts mem.old) regs.old) }
{
    let v = top(mem, regs);
    let holds = holds_in(mem, v);
    replace_top(mem, regs, truth(holds == WANTED))
}

pub fn jump(regs: &mut Registers, to: usize) -> Turn
    ensures regs { regs.new ≡ jumped regs.old to }
    ensures turn { result ≡ Turn.On }
{
    regs.pc = to;
    Turn::On
}

// Takes the top; if it is to jump, goes there.
#[tactic(auto, unfolding(crate::specs::Jumps::taking, crate::specs::Turns::dropped))]
fn take_and_jump(mem: &mut Memory, regs: &mut Registers, goes: bool, to: usize) -> Turn
    ensures { says (came (Ok result)) (parts mem.new) regs.new ≡ taking (parts mem.old) regs.old goes to }
{
    let turn = drop_top(mem, regs);
    if goes {
        regs.pc = to;
    }
    turn
}

// Takes the top, and goes there if it holds just if that is wanted. A const parameter, since as an argument it makes a loop that counts take 1.3 times
// as long.
pub fn jump_on<const WANTED: bool>(mem: &mut Memory, regs: &mut Registers, to: usize) -> Turn
    ensures { says (came (Ok result)) (parts mem.new) regs.new ≡ pick WANTED (jumped_if (parts mem.old) regs.old to) (jumped_unless (parts mem.old) regs.old to) }
{
    let v = top(mem, regs);
    let holds = holds_in(mem, v);
    take_and_jump(mem, regs, holds == WANTED, to)
}

// Out of the code: the rules for the line, or of the stage, are done. Nothing is on the stack there.
pub fn leave(regs: &mut Registers) -> Turn
    ensures regs { regs.new ≡ between regs.old }
    ensures turn { result ≡ Turn.On }
{
    regs.running = false;
    regs.depth = 0;
    Turn::On
}

// The run is over with the number on top.
pub fn exit(mem: &Memory, regs: &Registers) -> Result<Turn, Refusal>
    ensures { came result ≡ exited (parts mem.now) regs.now }
{
    let v = top(mem, regs);
    let k = exit_number(number_in(mem, v)).ok_or(Refusal::NoSuchNumber)?;
    Ok(Turn::Done(k))
}
