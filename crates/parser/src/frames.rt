// The stack of an expression that is being read: what was begun and waits for an operand. It is cells, with its depth beside: the area is lent and fixed,
// without a heap.
ghost use Rattle.std.specs.Prelude.{◌≡◌, ◌+◌, ◌≤◌, length};
ghost use Rattle.lexer.specs.Memory.{cell};
ghost use Rattle.parser.specs.Frames.{frame_of, Pushed};

use crate::nodes::{Operator, Prefix};
use lexer::cells::{Cell, Work, load, store};
use lexer::tokens::Name;

// The first cell of the stack.
const FRAMES: usize = 21_120;

// What was begun. Operands that are there already are the numbers of their nodes.
#[derive(Clone, Copy)]
pub enum Frame {
    // An operator at a level, behind its left side.
    Infix(u64, Operator, usize),
    // ! or -
    Prefixed(Prefix),
    Dollar,
    // a = behind the place that is set.
    Assigning(usize),
    // (
    Group,
    // t[
    Indexing(Name),
    // length( or upper(
    Measuring(Prefix),
    // index( and its operands.
    IndexFirst,
    IndexSecond(usize),
    // substr( and its operands.
    PartFirst,
    PartSecond(usize),
    PartThird(usize, usize),
    // split(
    SplitFirst,
    // swap( with its pattern, and an operand.
    SwapFirst(usize),
    SwapSecond(usize, usize),
    // f( with the list of its arguments so far.
    Arguments(Name, usize),
}

// Where reading stands: the next token, how many frames there are, and the first cell that is free for a node.
#[derive(Clone, Copy)]
pub struct Spot {
    pub place: usize,
    pub depth: usize,
    pub nodes: usize,
}

// What is next in reading an expression, if there is one.
#[derive(Clone, Copy)]
pub enum Turn {
    // To read an operand.
    Operand(Spot),
    // Behind an operand, by its node: what follows may bind to it up to a level.
    After(Spot, usize, u64),
    // The expression is there, by its node.
    Done(Spot, usize),
}

// Kinds of cells that hold frames. They are numbers: the area is lent and made of words, and only the two `From` below write and read them.
const INFIX: u64 = 100;

const PREFIXED: u64 = 101;

const DOLLAR: u64 = 102;

const ASSIGNING: u64 = 103;

const GROUP: u64 = 104;

const INDEXING: u64 = 105;

const MEASURING: u64 = 106;

const INDEX_FIRST: u64 = 107;

const INDEX_SECOND: u64 = 108;

const PART_FIRST: u64 = 109;

const PART_SECOND: u64 = 110;

const PART_THIRD: u64 = 111;

const SPLIT_FIRST: u64 = 112;

const SWAP_FIRST: u64 = 113;

const SWAP_SECOND: u64 = 114;

const ARGUMENTS: u64 = 115;

impl From<Frame> for Cell {
    ghost from_gives = { λ f c. frame_of c ≡ f };

    #[tactic(auto, unfolding(crate::specs::Frames::frame_of))]
    fn from(frame: Frame) -> Cell {
        match frame {
            Frame::Infix(a, b, c) => Cell::new(INFIX, [a, u64::from(b), c as u64, 0]),
            Frame::Prefixed(a) => Cell::new(PREFIXED, [u64::from(a), 0, 0, 0]),
            Frame::Dollar => Cell::new(DOLLAR, [0; 4]),
            Frame::Assigning(a) => Cell::new(ASSIGNING, [a as u64, 0, 0, 0]),
            Frame::Group => Cell::new(GROUP, [0; 4]),
            Frame::Indexing(a) => Cell::new(INDEXING, [a.start as u64, a.len as u64, 0, 0]),
            Frame::Measuring(a) => Cell::new(MEASURING, [u64::from(a), 0, 0, 0]),
            Frame::IndexFirst => Cell::new(INDEX_FIRST, [0; 4]),
            Frame::IndexSecond(a) => Cell::new(INDEX_SECOND, [a as u64, 0, 0, 0]),
            Frame::PartFirst => Cell::new(PART_FIRST, [0; 4]),
            Frame::PartSecond(a) => Cell::new(PART_SECOND, [a as u64, 0, 0, 0]),
            Frame::PartThird(a, b) => Cell::new(PART_THIRD, [a as u64, b as u64, 0, 0]),
            Frame::SplitFirst => Cell::new(SPLIT_FIRST, [0; 4]),
            Frame::SwapFirst(a) => Cell::new(SWAP_FIRST, [a as u64, 0, 0, 0]),
            Frame::SwapSecond(a, b) => Cell::new(SWAP_SECOND, [a as u64, b as u64, 0, 0]),
            Frame::Arguments(a, b) => Cell::new(
                ARGUMENTS,
                [a.start as u64, a.len as u64, b as u64, 0],
            ),
        }
    }
}

impl From<Cell> for Frame {
    ghost from_gives = { λ c f. f ≡ frame_of c };

    #[tactic(auto, unfolding(crate::specs::Frames::frame_of))]
    fn from(c: Cell) -> Frame {
        match c.kind {
            INFIX => Frame::Infix(c.first, Operator::from(c.second), c.third as usize),
            PREFIXED => Frame::Prefixed(Prefix::from(c.first)),
            DOLLAR => Frame::Dollar,
            ASSIGNING => Frame::Assigning(c.first as usize),
            INDEXING => Frame::Indexing(Name::at(c.first, c.second)),
            MEASURING => Frame::Measuring(Prefix::from(c.first)),
            INDEX_FIRST => Frame::IndexFirst,
            INDEX_SECOND => Frame::IndexSecond(c.first as usize),
            PART_FIRST => Frame::PartFirst,
            PART_SECOND => Frame::PartSecond(c.first as usize),
            PART_THIRD => Frame::PartThird(c.first as usize, c.second as usize),
            SPLIT_FIRST => Frame::SplitFirst,
            SWAP_FIRST => Frame::SwapFirst(c.first as usize),
            SWAP_SECOND => Frame::SwapSecond(c.first as usize, c.second as usize),
            ARGUMENTS => Frame::Arguments(Name::at(c.first, c.second), c.third as usize),
            _ => Frame::Group,
        }
    }
}

// Pushes a frame and goes on to an operand, behind so many tokens. The length is promised besides the type: of an area behind a struct's `&mut`, lent anew or not, a
// proof knows none after a call. The bounds are no types: a narrower one would ask more of callers.
pub fn push(work: &mut Work, s: Spot, frame: Frame, eaten: usize) -> Turn
    requires depth { s.depth ≤ 4096 }
    requires place { s.place ≤ 4096 }
    requires eaten { eaten ≤ 4 }
    ensures pushed { Pushed work.old work.new s frame eaten result }
    ensures long { length work.new ≡ 179200 }
{
    store(work, FRAMES + s.depth, Cell::from(frame));
    Turn::Operand(Spot {
        place: s.place + eaten,
        depth: s.depth + 1,
        nodes: s.nodes,
    })
}

// The frame at a depth.
pub fn frame_at(work: &Work, depth: usize) -> Frame
    requires { depth ≤ 4096 }
    ensures { result ≡ frame_of (cell work.now (21120 + depth)) }
{
    Frame::from(load(work, FRAMES + depth))
}
