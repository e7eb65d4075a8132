// The step of the machine for C: the act is returned (0 ask, 1 write, 2 done, 3 refused), and its number is left in `number`.
#![tactic(auto)]

ghost use Rattle.std.specs.Prelude.{◌≡◌};
ghost use Rattle.machine.specs.declared.Told.{Told};
ghost use Rattle.machine.specs.Entry.{act_number, told_number, StepSays, step_fits};

// One step over a kind and its bytes, as the header has it.
#[unsafe(no_mangle)]
pub extern "C" fn movkresan_step(
    memory: &mut [u64],
    kind: u64,
    piece: &[u8],
    out: &mut [u8],
    number: &mut u64,
) -> u64
    ensures { (told : Told) × (result ≡ act_number told) × (number.new ≡ told_number told) × StepSays memory.old kind piece.now out.old (step_fits memory.old kind piece.now out.old) told memory.new out.new }
{
    machine::movkresan_step(memory, kind, piece, out, number)
}
