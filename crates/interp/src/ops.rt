// Operations of the code, a word each: memory is lent and made of words, so an opcode stands there as a number, and only `From` reads it.
ghost use Rattle.std.specs.Prelude.{◌≡◌};
ghost use Rattle.assembly.specs.Assembly.{op_of};
ghost use Rattle.interp.specs.Ops.{op_in, one_of, two_of};

use values::compare::Comparison;
use values::numbers::Arithmetic;

// An operation takes its operands from the stack, the last on top, and leaves its result there.
#[derive(Clone, Copy)]
pub enum Op {
    // the value of a slot
    Load(usize),
    // the top into a slot; it stays on the stack
    Save(usize),
    LineCount,
    FieldCount,
    // the field whose number is on top
    GetField,
    // the value, then the field's number
    SetField,
    Not,
    Opposite,
    Calculate(Arithmetic),
    Compare(Comparison),
    // two texts as one
    Join,
    // an operation on values that this machine does not have
    Unknown,
    // 1 if the top holds, otherwise 0
    Truth,
    // something is wrong, with this number
    Fail(u64),
    Jump(usize),
    // takes a value; goes there if it holds
    JumpIf(usize),
    JumpUnless(usize),
    Drop,
    PrintLine,
    // so many values from the stack
    PrintValues(usize),
    // no more rules for this line
    LeaveLine,
    Exit,
    // the end of a stage's rules
    End,
}

// Opcodes are below this number, and the number that goes with one is so many times it.
const OPCODES: u64 = 64;

// This and the next by name: an operator's number is no word, and there is one `From<u64> for Op`.
#[tactic(auto, unfolding(crate::specs::Ops::one_of))]
fn on_one(k: u64) -> Op
    ensures { result ≡ one_of k }
{
    match k {
        0 => Op::Not,
        1 => Op::Opposite,
        _ => Op::Unknown,
    }
}

#[tactic(auto, unfolding(crate::specs::Ops::two_of))]
fn on_two(k: u64) -> Op
    ensures { result ≡ two_of k }
{
    match k {
        2 => Op::Compare(Comparison::Equal),
        3 => Op::Compare(Comparison::Unequal),
        4 => Op::Compare(Comparison::Less),
        5 => Op::Compare(Comparison::AtMost),
        6 => Op::Calculate(Arithmetic::Add),
        7 => Op::Calculate(Arithmetic::Subtract),
        8 => Op::Calculate(Arithmetic::Multiply),
        9 => Op::Calculate(Arithmetic::Divide),
        10 => Op::Calculate(Arithmetic::Remainder),
        11 => Op::Join,
        13 => Op::Compare(Comparison::Above),
        14 => Op::Compare(Comparison::AtLeast),
        _ => Op::Unknown,
    }
}

// The operation of a word; behind the last opcode all are the end.
impl From<u64> for Op {
    ghost from_gives = { λ word op. op ≡ op_in (op_of word) };

    #[tactic(auto, unfolding(assembly::specs::Assembly::op_of, assembly::specs::Assembly::decoded))]
    fn from(word: u64) -> Op {
        let n = word / OPCODES;
        match word % OPCODES {
            0 => Op::Load(n as usize),
            1 => Op::Save(n as usize),
            2 => Op::LineCount,
            3 => Op::FieldCount,
            4 => Op::GetField,
            5 => Op::SetField,
            6 => on_one(n),
            7 => on_two(n),
            8 => Op::Truth,
            9 => Op::Fail(n),
            10 => Op::Jump(n as usize),
            11 => Op::JumpIf(n as usize),
            12 => Op::JumpUnless(n as usize),
            13 => Op::Drop,
            14 => Op::PrintLine,
            15 => Op::PrintValues(n as usize),
            16 => Op::LeaveLine,
            17 => Op::Exit,
            _ => Op::End,
        }
    }
}
