// The machine's registers, and how memory keeps them between steps.
ghost use Rattle.std.specs.Prelude.{◌≡◌, ℕ, ◌^◌, ◌<◌, length, slice_index};
ghost use Rattle.regions.specs.Parts.{parts, with_registers};
ghost use Rattle.interp.specs.Registers.{stage_of, line_in, input_in, print_in, registers_in, row_of, saved_row, RegistersComeBack};

use lines::cutting::Cut;
use lines::input::Input;
use lines::line::Line;
use regions::Memory;
use regions::fields::Place;

// Which rules are being worked on.
#[derive(Clone, Copy)]
pub enum Stage {
    Begin,
    Lines,
    End,
}

// A print that is not finished: how many values it has (0 is the line), and how many of its bytes are out (0 is no print). Memory keeps two words, and the
// definitions of prints speak of these two numbers; an Option would ask each of them for a case.
#[derive(Clone, Copy, Default)]
pub struct Print {
    pub values: usize,
    pub out: usize,
}

#[derive(Clone, Copy)]
pub struct Registers {
    // where the next operation stands in the code
    pub pc: usize,
    // how many values are on the stack
    pub depth: usize,
    // in the code, or between two runs through it; pc is no Option of this, since each operation moves it without asking
    pub running: bool,
    pub stage: Stage,
    // how many lines there were
    pub count: u64,
    // the line that is being worked on
    pub line: Line,
    pub input: Input,
    // where the code for each line begins, and that for the end
    pub at_line: usize,
    pub at_end: usize,
    pub print: Print,
    // how many bytes are in this step's row; 0 when a step begins
    pub used: usize,
}

// How many words the registers take, and how many there are for them. Registers are told from words, and back, place by place: that is memory's format.
const ROW: usize = 18;

const WORDS: usize = 64;

// In memory a stage is a number, as all is there.
impl From<u64> for Stage {
    ghost from_gives = { λ n stage. stage ≡ stage_of n };

    #[tactic(auto, unfolding(crate::specs::Registers::stage_of))]
    fn from(n: u64) -> Stage {
        match n {
            0 => Stage::Begin,
            1 => Stage::Lines,
            _ => Stage::End,
        }
    }
}

#[tactic(auto, unfolding(crate::specs::Registers::line_in))]
fn line_in(words: &[u64; WORDS]) -> Line
    ensures { result ≡ line_in words.now }
{
    Line {
        place: Place {
            start: words[5] as usize,
            len: words[6] as usize,
        },
        fields: words[7] as usize,
    }
}

#[tactic(auto, unfolding(crate::specs::Registers::input_in))]
fn input_in(words: &[u64; WORDS]) -> Input
    ensures { result ≡ input_in words.now }
{
    Input {
        from: words[8] as usize,
        to: words[9] as usize,
        cut: Cut {
            at: words[10] as usize,
            since: words[11] as usize,
            fields: words[12] as usize,
        },
        ended: words[13] != 0,
    }
}

#[tactic(auto, unfolding(crate::specs::Registers::print_in))]
fn print_in(words: &[u64; WORDS]) -> Print
    ensures { result ≡ print_in words.now }
{
    Print {
        values: words[16] as usize,
        out: words[17] as usize,
    }
}

#[tactic(auto, unfolding(crate::specs::Registers::registers_in))]
fn registers_in(words: &[u64; WORDS]) -> Registers
    ensures { result ≡ registers_in words.now }
{
    Registers {
        pc: words[0] as usize,
        depth: words[1] as usize,
        running: words[2] != 0,
        stage: Stage::from(words[3]),
        count: words[4],
        line: line_in(words),
        input: input_in(words),
        at_line: words[14] as usize,
        at_end: words[15] as usize,
        print: print_in(words),
        used: 0,
    }
}

// The registers, as memory has them when a step begins.
#[tactic(auto, unfolding(regions::specs::Parts::parts))]
pub fn load_registers(mem: &Memory) -> Registers
    ensures { result ≡ registers_in (parts mem.now).registers }
{
    registers_in(mem.first_chunk().unwrap())
}

#[tactic(auto, unfolding(crate::specs::Registers::row_of))]
fn row_of(regs: Registers) -> [u64; ROW]
    ensures { result ≡ row_of regs }
{
    [
        regs.pc as u64,
        regs.depth as u64,
        u64::from(regs.running),
        regs.stage as u64,
        regs.count,
        regs.line.place.start as u64,
        regs.line.place.len as u64,
        regs.line.fields as u64,
        regs.input.from as u64,
        regs.input.to as u64,
        regs.input.cut.at as u64,
        regs.input.cut.since as u64,
        regs.input.cut.fields as u64,
        u64::from(regs.input.ended),
        regs.at_line as u64,
        regs.at_end as u64,
        regs.print.values as u64,
        regs.print.out as u64,
    ]
}

// A slice: with `&mut [u64; WORDS]` by `first_chunk_mut` this proves, but `save_registers` would have to prove of the lent chunk what a slice tells: its
// length, and which words it has.
fn save_row(words: &mut [u64], row: &[u64; ROW])
    requires { length words.old ≡ 64 }
    ensures saved { words.new ≡ saved_row row.now words.old }
    ensures small { (i : ℕ) → slice_index words.new i < 2 ^ 64 }
{
    words[0..ROW].copy_from_slice(row);
}

// Puts the registers where memory keeps them between steps.
pub fn save_registers(mem: &mut Memory, regs: Registers)
    ensures saved { parts mem.new ≡ with_registers (parts mem.old) (saved_row (row_of regs) (parts mem.old).registers) }
    ensures small { (i : ℕ) → slice_index mem.new i < 2 ^ 64 }
{
    let row = row_of(regs);
    save_row(&mut mem[0..WORDS], &row);
}

// Registers are loaded as they were saved, with nothing in the row.
pub fn registers_come_back()
    ensures { RegistersComeBack }
{}
