// The code of a program as the machine in memory runs it: without notes, with slots of a constant pool for names and constants, a word for each
// instruction. The functions below do nothing when they are called; each one's contract is a theorem, and the crate is accepted only with its proof.
#![tactic(auto)]

ghost use Rattle.assembly.specs.Example.{Worked};
ghost use Rattle.assembly.specs.Laws.{WordsRead, WordsSmall, Correspondence, OnlyKnown, Sizes, Steps, Generated};

// A word is read back as the operation that it was made of.
pub fn words_read()
    ensures { WordsRead }
{}

// The word of an operation whose number is in range is below 2^20.
pub fn words_small()
    ensures { WordsSmall }
{}

// Operations stand for instructions, place by place.
pub fn correspondence_stands()
    ensures { Correspondence }
{}

// The code of a known program has only known instructions.
pub fn known_stands()
    ensures { OnlyKnown }
{}

// A program that was read from at most 4,096 bytes has at most 12,291 operations and 4,096 slots, and all numbers are in range.
pub fn sizes_stand()
    ensures { Sizes }
{}

// An operation does what the instruction does that it stands for.
pub fn steps_stand()
    ensures { Steps }
{}

// A generator by recursion over the program makes the same code.
pub fn generator_stands()
    ensures { Generated }
{}

// A program's code, worked out.
pub fn example_stands()
    ensures { Worked }
{}
