// One turn: an operation of the code, or what comes between two runs through it.
ghost use Rattle.std.specs.Prelude.{◌≡◌, length};
ghost use Rattle.regions.specs.Parts.{parts};
ghost use Rattle.interp.specs.Outcomes.{came};
ghost use Rattle.interp.specs.Turns.{says};
ghost use Rattle.interp.specs.Dispatch.{fetched, performed, turned};

use crate::between::next_line;
use crate::comparing::compare_two;
use crate::fields::get_field;
use crate::jumps::{exit, judge, jump, jump_on, leave};
use crate::numbers::{oppose, reckon};
use crate::ops::Op;
use crate::registers::Registers;
use crate::slots::{count_fields, count_lines, load_slot, save_slot};
use crate::stack::drop_top;
use crate::texts::join;
use crate::{Refusal, Turn};
use regions::{Memory, code_at};

// The next operation of the code.
#[tactic(auto, unfolding(crate::specs::Dispatch::fetched))]
pub fn fetch(mem: &Memory, regs: &Registers) -> Op
    ensures { result ≡ fetched (parts mem.now) regs.now }
{
    Op::from(code_at(mem, regs.pc))
}

// An operation: a match on a closed kind and no table of functions. Prints and the setting of fields are done elsewhere, and are unknown here.
pub fn perform(mem: &mut Memory, regs: &mut Registers, op: Op) -> Result<Turn, Refusal>
    ensures { says (came result) (parts mem.new) regs.new ≡ performed op (parts mem.old) regs.old }
{
    match op {
        Op::Load(i) => load_slot(mem, regs, i),
        Op::Save(i) => Ok(save_slot(mem, regs, i)),
        Op::LineCount => count_lines(mem, regs),
        Op::FieldCount => count_fields(mem, regs),
        Op::GetField => get_field(mem, regs),
        Op::Not => Ok(judge::<false>(mem, regs)),
        Op::Opposite => oppose(mem, regs),
        Op::Calculate(c) => reckon(mem, regs, c),
        Op::Compare(c) => Ok(compare_two(mem, regs, c)),
        Op::Join => join(mem, regs),
        Op::Truth => Ok(judge::<true>(mem, regs)),
        Op::Fail(k) => Err(Refusal::Stated(k)),
        Op::Jump(to) => Ok(jump(regs, to)),
        Op::JumpIf(to) => Ok(jump_on::<true>(mem, regs, to)),
        Op::JumpUnless(to) => Ok(jump_on::<false>(mem, regs, to)),
        Op::Drop => Ok(drop_top(mem, regs)),
        Op::LeaveLine | Op::End => Ok(leave(regs)),
        Op::Exit => exit(mem, regs),
        Op::SetField | Op::PrintLine | Op::PrintValues(_) | Op::Unknown => Err(Refusal::Unknown),
    }
}

// One turn, where the operation is none that is done elsewhere: that of a machine without prints. It is promised to callers, and stays beside engine's, which
// has prints, till the machine works by that.
#[tactic(auto, unfolding(crate::specs::Dispatch::turned))]
pub fn turn(mem: &mut Memory, regs: &mut Registers) -> Result<Turn, Refusal>
    ensures { says (came result) (parts mem.new) regs.new ≡ turned (parts mem.old) regs.old }
{
    if regs.running {
        let op = fetch(mem, regs);
        perform(mem, regs, op)
    } else {
        next_line(mem, regs)
    }
}
