// Prints. What has no room in this step's row goes into the next ones; until then the values stay on the stack.
ghost use Rattle.std.specs.Prelude.{◌≡◌, ◌≤◌, length, Ok};
ghost use Rattle.regions.specs.Parts.{parts};
ghost use Rattle.rows.specs.Rows.{over_row};
ghost use Rattle.interp.specs.Outcomes.{came};
ghost use Rattle.interp.specs.Turns.{says};
ghost use Rattle.engine.specs.Prints.{few, advanced, released, print_parts, print_regs, printed_so, line_text, values_text, line_printed, values_printed, pending_left, resumed};
ghost use Rattle.engine.specs.Dispatch.{lent_after};

use interp::Turn;
use interp::registers::{Print, Registers};
use interp::stack::advance;
use regions::Memory;
use regions::cells::{CELLS, stacked};
use regions::texts::release_value;
use rows::{Printed, print_line, print_values};

// Lets n values go, from the top of a stack of this depth down.
fn release_values(mem: &mut Memory, depth: usize, n: usize)
    ensures { parts mem.new ≡ released (parts mem.old) depth n }
{
    for i in 0..n {
        let v = stacked(mem, depth.saturating_sub(i + 1));
        release_value(mem, v);
    }
}

// A print of n values has come so far: when it is finished its values go, otherwise the rest waits for the next row.
#[tactic(auto, unfolding(crate::specs::Prints::print_parts, crate::specs::Prints::print_regs))]
fn end_print(mem: &mut Memory, regs: &mut Registers, n: usize, printed: Printed)
    ensures memory { parts mem.new ≡ print_parts (parts mem.old) regs.old n printed }
    ensures regs { regs.new ≡ print_regs regs.old n printed }
{
    regs.used = printed.used;
    if printed.finished {
        release_values(mem, regs.depth, n);
        regs.depth = regs.depth.saturating_sub(n);
        regs.print = Print::default();
    } else {
        regs.print = Print {
            values: n,
            out: printed.done,
        };
    }
}

// A print of n values began and has come so far: the code goes on behind it.
fn begin_print(mem: &mut Memory, regs: &mut Registers, n: usize, printed: Printed) -> Turn
    ensures { says (came (Ok result)) (parts mem.new) regs.new ≡ printed_so (parts mem.old) (advanced regs.old) n printed }
{
    advance(regs);
    end_print(mem, regs, n, printed);
    Turn::On
}

// A print of the line begins.
#[tactic(auto, unfolding(crate::specs::Prints::line_printed))]
pub fn begin_line(mem: &mut Memory, regs: &mut Registers, out: &mut [u8]) -> Turn
    requires { 4096 ≤ length out.old }
    ensures did { says (came (Ok result)) (parts mem.new) regs.new ≡ line_printed (parts mem.old) regs.old }
    ensures row { out.new ≡ over_row out.old regs.old.used (line_text (parts mem.old) regs.old) }
{
    let printed = print_line(mem, regs.line.place, 0, out, regs.used);
    begin_print(mem, regs, 0, printed)
}

// A print of the n topmost values begins, or of as many as fit on the stack.
#[tactic(auto, unfolding(crate::specs::Prints::values_printed))]
pub fn begin_values(mem: &mut Memory, regs: &mut Registers, n: usize, out: &mut [u8]) -> Turn
    requires { 4096 ≤ length out.old }
    ensures did { says (came (Ok result)) (parts mem.new) regs.new ≡ values_printed (parts mem.old) regs.old (few n) }
    ensures row { out.new ≡ over_row out.old regs.old.used (values_text (parts mem.old) regs.old (few n)) }
{
    let n = n.min(CELLS);
    let printed = print_values(mem, regs.depth, n, 0, out, regs.used);
    begin_print(mem, regs, n, printed)
}

// A print that is not finished goes on, if there is one.
#[tactic(auto, unfolding(crate::specs::Prints::pending_text, crate::specs::Prints::pending_left, crate::specs::Prints::resumed))]
pub fn resume(mem: &mut Memory, regs: &mut Registers, out: &mut [u8])
    requires { 4096 ≤ length out.old }
    ensures memory { parts mem.new ≡ (resumed (parts mem.old) regs.old).mem }
    ensures regs { regs.new ≡ (resumed (parts mem.old) regs.old).regs }
    ensures row { out.new ≡ lent_after out.old regs.old.used (pending_left (parts mem.old) regs.old) }
{
    let done = regs.print.out;
    if done == 0 {
        return;
    }
    let n = regs.print.values.min(CELLS);
    if n == 0 {
        let printed = print_line(mem, regs.line.place, done, out, regs.used);
        end_print(mem, regs, n, printed);
    } else {
        let printed = print_values(mem, regs.depth, n, done, out, regs.used);
        end_print(mem, regs, n, printed);
    }
}
