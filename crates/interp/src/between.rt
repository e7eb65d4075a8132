// What comes between two runs through the code: the next line, or the end.
ghost use Rattle.std.specs.Prelude.{◌≡◌, length};
ghost use Rattle.regions.specs.Parts.{parts};
ghost use Rattle.interp.specs.Outcomes.{came};
ghost use Rattle.interp.specs.Turns.{says};
ghost use Rattle.interp.specs.Between.{started_regs, started_turn, closing, waited_regs, waited_turn, last_taken, line_sought, line_next};

use crate::registers::{Registers, Stage};
use crate::{LONGEST, Refusal, Turn};
use lines::cutting::len_at;
use lines::input::{Input, last_line, scan};
use lines::line::Line;
use regions::Memory;
use regions::fields::{FIELDS, Place};

// A line was found: its rules are next, if it is not too long and its fields have room.
#[tactic(auto, unfolding(crate::specs::Between::started_regs, crate::specs::Between::started_turn))]
fn start_line(regs: &mut Registers, input: Input, line: Line) -> Result<Turn, Refusal>
    ensures regs { regs.new ≡ started_regs regs.old input line }
    ensures turn { came result ≡ started_turn line }
{
    if line.place.len > LONGEST {
        return Err(Refusal::TooLong);
    }
    if line.fields > FIELDS {
        return Err(Refusal::NoRoom);
    }
    regs.input = input;
    regs.line = line;
    regs.count = regs.count.wrapping_add(1);
    regs.stage = Stage::Lines;
    regs.running = true;
    regs.pc = regs.at_line;
    Ok(Turn::On)
}

// There are no more lines: the rules for the end are next.
fn start_end(regs: &mut Registers, input: Input)
    ensures { regs.new ≡ closing regs.old input }
{
    regs.input = input;
    regs.stage = Stage::End;
    regs.running = true;
    regs.pc = regs.at_end;
}

// Part of a line has come: nothing is to be done before there is more, unless it is too long already.
#[tactic(auto, unfolding(crate::specs::Between::waited_regs, crate::specs::Between::waited_turn))]
fn wait(regs: &mut Registers, input: Input) -> Result<Turn, Refusal>
    ensures regs { regs.new ≡ waited_regs regs.old input }
    ensures turn { came result ≡ waited_turn input }
{
    let waits = Place {
        start: input.from,
        len: input.to.saturating_sub(input.from),
    };
    if len_at(waits) > LONGEST {
        return Err(Refusal::TooLong);
    }
    regs.input = input;
    Ok(Turn::Ask)
}

// The end was told: what waits is the last line, if there is something.
#[tactic(auto, unfolding(crate::specs::Between::last_taken))]
fn take_last(mem: &mut Memory, regs: &mut Registers, input: Input) -> Result<Turn, Refusal>
    ensures { says (came result) (parts mem.new) regs.new ≡ last_taken (parts mem.old) regs.old input }
{
    let mut rest = input;
    match last_line(mem, &mut rest) {
        Some(line) => start_line(regs, rest, line),
        None => {
            start_end(regs, rest);
            Ok(Turn::On)
        }
    }
}

// Looks for the next line. Where that is refused, the registers are as they were, so that it would be found again.
#[tactic(auto, unfolding(crate::specs::Between::line_sought))]
fn seek_line(mem: &mut Memory, regs: &mut Registers) -> Result<Turn, Refusal>
    ensures { says (came result) (parts mem.new) regs.new ≡ line_sought (parts mem.old) regs.old }
{
    let mut input = regs.input;
    match scan(mem, &mut input) {
        Some(line) => start_line(regs, input, line),
        None if input.ended => take_last(mem, regs, input),
        None => wait(regs, input),
    }
}

// The next line with its rules, or the rules for the end, or the end of the run.
#[tactic(auto, unfolding(crate::specs::Between::line_next))]
pub fn next_line(mem: &mut Memory, regs: &mut Registers) -> Result<Turn, Refusal>
    ensures { says (came result) (parts mem.new) regs.new ≡ line_next (parts mem.old) regs.old }
{
    match regs.stage {
        Stage::Begin | Stage::Lines => seek_line(mem, regs),
        Stage::End => Ok(Turn::Done(0)),
    }
}
