// One step: what is told is taken in, then come turns, until the row is full, the budget is spent, or there is nothing to do.
ghost use Rattle.std.specs.Prelude.{◌≡◌, ◌≤◌, length};
ghost use Rattle.semantics.specs.Engine.{loop, goes_by};
ghost use Rattle.engine.specs.Scenes.{taken_in, halt_of, machine_parts};
ghost use Rattle.interp.specs.Outcomes.{came};
ghost use Rattle.engine.specs.Steps.{told_of, scene_in, PutBehind, said, answer_of, Answers};

use crate::dispatch::turn;
use crate::prints::resume;
use crate::{Answer, Event};
use interp::registers::{Registers, load_registers, save_registers};
use interp::{Refusal, Turn};
use lines::input::take_in;
use regions::Memory;
use rows::ROW;

// How many turns a step makes at most.
const TURNS: usize = 16_384;

// What is told is taken in; these are the registers with which turns begin.
fn begin(mem: &mut Memory, event: Event, out: &mut [u8]) -> Registers
    requires { 4096 ≤ length out.old }
    ensures scene { scene_in mem.new result out.new ≡ taken_in mem.old (told_of event.entry) }
    ensures row { PutBehind out.old 0 out.new result.used }
{
    let mut regs = load_registers(mem);
    match event {
        Event::Piece(piece) => take_in(mem, &mut regs.input, piece),
        Event::NoMore => regs.input.ended = true,
        Event::Next => resume(mem, &mut regs, out),
    }
    regs
}

// Up to so many turns; fewer if the row is full, or one of them asks, ends or refuses, which is said.
fn turns(
    mem: &mut Memory,
    regs: &mut Registers,
    out: &mut [u8],
    budget: usize,
) -> Result<Turn, Refusal>
    requires { (4096 ≤ length out.old) × (regs.old.used ≤ 4096) }
    ensures halt { halt_of (came result) (scene_in mem.new regs.new out.new) ≡ loop machine_parts budget (scene_in mem.old regs.old out.old) }
    ensures row { PutBehind out.old regs.old.used out.new regs.new.used }
{
    for _i in 0..budget {
        if regs.used >= ROW {
            return Ok(Turn::On);
        }
        match turn(mem, regs, out)? {
            Turn::On => {}
            stop => return Ok(stop),
        }
    }
    Ok(Turn::On)
}

// What is answered: what is in the row is written before anything else.
#[tactic(auto, unfolding(crate::specs::Steps::answer_of))]
fn answer(last: Result<Turn, Refusal>, used: usize) -> Result<Answer, Refusal>
    ensures { said result ≡ answer_of (came last) used }
{
    if used > 0 {
        return Ok(Answer::Write(used));
    }
    Ok(match last? {
        Turn::On => Answer::Write(0),
        Turn::Ask => Answer::Ask,
        Turn::Done(k) => Answer::Done(k),
    })
}

// One step. What is to be written stands at the front of `out`.
pub fn work(mem: &mut Memory, event: Event, out: &mut [u8]) -> Result<Answer, Refusal>
    requires { 4096 ≤ length out.old }
    ensures memory { mem.new ≡ (goes_by machine_parts mem.old (told_of event.entry)).memory }
    ensures act { Answers (goes_by machine_parts mem.old (told_of event.entry)).act (said result) out.old out.new }
{
    let mut regs = begin(mem, event, out);
    let last = turns(mem, &mut regs, out, TURNS);
    save_registers(mem, regs);
    answer(last, regs.used)
}
