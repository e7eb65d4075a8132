// The work area as numbered cells of seven words each: it is lent and fixed and there is no heap, so tokens, nodes and frames are cells by their numbers.
ghost use Rattle.std.specs.Prelude.{◌≡◌, ◌<◌, slice_index};
ghost use Rattle.lexer.specs.Memory.{cell, Stored};

// How many words a cell takes, how many cells there are, and how many words all take.
const EACH: usize = 7;

pub const CELLS: usize = 25_600;

pub const WORDS: usize = EACH * CELLS;

// The words of the work area.
pub type Work = [u64; WORDS];

// What a cell holds: a kind, a flag, and up to five numbers; all are zero in one with nothing in it.
#[derive(Clone, Copy, Default)]
pub struct Cell {
    pub kind: u64,
    pub flag: u64,
    pub first: u64,
    pub second: u64,
    pub third: u64,
    pub fourth: u64,
    pub fifth: u64,
}

impl Cell {
    // A cell of a kind with its first four numbers; the flag and the fifth are zero.
    pub fn new(kind: u64, numbers: [u64; 4]) -> Cell
        ensures { result ≡ record { kind = kind; flag = 0; first = slice_index numbers 0; second = slice_index numbers 1; third = slice_index numbers 2; fourth = slice_index numbers 3; fifth = 0 } }
    {
        let [first, second, third, fourth] = numbers;
        Cell {
            kind,
            first,
            second,
            third,
            fourth,
            ..Cell::default()
        }
    }
}

// A cell; behind the last one all are zero.
pub fn load(work: &Work, i: usize) -> Cell
    ensures { result ≡ cell work.now i }
{
    if i >= CELLS {
        return Cell::default();
    }
    let at = EACH * i;
    Cell {
        kind: work[at],
        flag: work[at + 1],
        first: work[at + 2],
        second: work[at + 3],
        third: work[at + 4],
        fourth: work[at + 5],
        fifth: work[at + 6],
    }
}

// Writes a cell, and no other. Word by word: a copy of a slice would first put all of them on the stack.
pub fn store(work: &mut Work, i: usize, cell: Cell)
    requires { i < 25600 }
    ensures { Stored work.old work.new i cell }
{
    let at = EACH * i;
    work[at] = cell.kind;
    work[at + 1] = cell.flag;
    work[at + 2] = cell.first;
    work[at + 3] = cell.second;
    work[at + 4] = cell.third;
    work[at + 5] = cell.fourth;
    work[at + 6] = cell.fifth;
}
