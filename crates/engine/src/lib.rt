// One step of the machine: what it is told is taken in, then come turns, and what they print stands in the lent row. The row is a slice and no
// `&mut [u8; ROW]`, which would ask callers for one size: it may be longer, and what a step leaves of a longer one is part of what is promised (`PutBehind`).
#![tactic(auto)]

pub mod dispatch;
pub mod prints;
pub mod setting;
pub mod steps;

ghost use Rattle.engine.specs.Steps.{StepsSteady};

// What a step is told, but for a program.
#[derive(Clone, Copy)]
pub enum Event<'a> {
    // The piece that was asked for.
    Piece(&'a [u8]),
    // There is none.
    NoMore,
    // What was to be written is written.
    Next,
}

// What comes of a step, unless the run is refused.
#[derive(Clone, Copy)]
pub enum Answer {
    // a piece is wanted
    Ask,
    // so many bytes of the row are to be written
    Write(usize),
    // the run is over, with this number
    Done(u64),
}

// Every step keeps the memory's length, and its numbers within 64 bits.
pub fn steps_steady()
    ensures { StepsSteady }
{}
