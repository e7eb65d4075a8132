// The loop that drives the machine: it tells it what comes, and obeys its acts.
ghost use Rattle.std.specs.Prelude.{◌≡◌, ◌≤◌, false, true, length, take, Option};
ghost use Rattle.machine.specs.declared.Told.TheVariants.{More, Write};
ghost use Rattle.language.specs.Run.{a_row};
ghost use Rattle.machine.specs.Entry.{own};
ghost use Rattle.machine.specs.Drive.{Account, Gives, Shows, GoesOn, SameLoans, EndedSo, ShownIsWritten};

use crate::{Event, MEMORY, ROW, Told, tell};
use std::alloc::Global;

// Why a run isn't done.
#[derive(Clone, Copy, Debug, Drop, PartialEq, Eq)]
pub enum Failure<E> {
    // The machine refused, for this reason.
    Refused(u64),
    // The program has more than 4,096 bytes: the machine was not told of it.
    TooLong,
    // Reading or showing failed.
    Broken(E),
    // It went on for more than 2^64 - 2 acts.
    Endless,
    // There is no room for the machine's memory.
    NoMemory,
}

impl<E> From<E> for Failure<E> {
    // `Endless` is there for the edit that must fail: its error can't be let go, so only the promise can be turned.
    ghost use Rattle.machine.specs.declared.drive.Failure.TheVariants.{Broken, Endless};

    ghost from_gives = { λ e f. f ≡ Broken e };

    fn from(error: E) -> Self {
        Failure::Broken(error)
    }
}

// Where pieces come from and rows go.
pub trait World {
    // Why one couldn't be given or shown. It can be copied and sent, so that what comes of a run can be, too, whatever the world.
    type Error: Copy + Send + Sync;

    ghost account: { Account Self };

    // The next piece is so many bytes, at the front of what is lent; or there are no more.
    fn piece(&mut self, into: &mut [u8]) -> Result<Option<usize>, Self::Error>
        ensures { Gives account self.old result into.new self.new };

    fn show(&mut self, row: &[u8]) -> Result<(), Self::Error>
        ensures { Shows account self.old result row.now self.new };
}

// So many bytes at the front of a row are a row, too. Lent as an array it would need no `few`, but then the proof isn't told that its numbers are bytes.
fn front(row: &[u8], n: u64) -> &[u8]
    requires within { n ≤ length row.now }
    requires few { n ≤ 4096 }
    ensures bytes { result.now ≡ take n row.now }
    ensures fits { a_row result.now ≡ true }
{
    &row[..n as usize]
}

// A machine beside its world, with what is lent to either.
#[derive(Drop)]
struct Driver<'a, W> {
    world: &'a mut W,
    memory: &'a mut [u64; MEMORY],
    piece: [u8; ROW],
    row: [u8; ROW],
    // Whether the world has said that there are no more pieces.
    over: bool,
}

impl<W: World> Driver<'_, W> {
    // The machine has asked for a piece: the world gives one, unless it has said that there are no more.
    fn ask(&mut self) -> Result<Told, W::Error>
        ensures same { SameLoans self.old self.new }
        ensures goes_on { GoesOn W.World.account More self.old result self.new }
    {
        let Driver {
            world,
            memory,
            piece,
            row,
            over,
        } = self;
        if !*over && let Some(n) = world.piece(piece)? {
            return Ok(tell(*memory, Event::Piece(&piece[..n]), row));
        }
        *over = true;
        Ok(tell(*memory, Event::NoMore, row))
    }

    // The machine writes so many bytes of the row: the world shows them, and the machine is told to go on.
    fn put(&mut self, n: u64) -> Result<Told, W::Error>
        requires { n ≤ length self.old.row }
        ensures same { SameLoans self.old self.new }
        ensures goes_on { GoesOn W.World.account (Write n) self.old result self.new }
    {
        let Driver {
            world,
            memory,
            row,
            ..
        } = self;
        world.show(front(row, n))?;
        Ok(tell(*memory, Event::Next, row))
    }

    // Drives the machine in a memory that is as at the start.
    fn run(&mut self, program: &[u8]) -> Result<u64, Failure<W::Error>>
        requires start { self.old.memory.now ≡ own.start }
        requires fresh { self.old.over ≡ false }
        requires short { length program.now ≤ 4096 }
        ensures same { SameLoans self.old self.new }
        ensures ended { EndedSo W.World.account program.now self.old.world.now result self.new.world.now }
    {
        let Driver { memory, row, .. } = self;
        let mut told = tell(*memory, Event::Program(program), row);
        for _ in 0..u64::MAX {
            told = match told {
                Told::More => self.ask()?,
                Told::Write(n) => self.put(n)?,
                Told::Done(k) => return Ok(k),
                Told::No(k) => return Err(Failure::Refused(k)),
            };
        }
        Err(Failure::Endless)
    }
}

// Runs a program in a memory of its own: asks the world for pieces and shows it rows, as the machine says, till the run is over.
#[tactic(auto, unfolding(crate::specs::Drive::EndedSo))]
pub fn drive<W: World>(
    world: &mut W,
    heap: Global,
    program: &[u8],
) -> Result<u64, Failure<W::Error>>
    ensures { EndedSo W.World.account program.now world.old result world.new }
{
    if program.len() > ROW {
        return Err(Failure::TooLong);
    }
    let Ok(mut memory) = vec![in heap; 0u64; MEMORY] else {
        return Err(Failure::NoMemory);
    };
    let mut driver = Driver {
        world,
        memory: <&mut [u64; MEMORY]>::try_from(memory.as_mut_slice()).unwrap(),
        piece: [0; ROW],
        row: [0; ROW],
        over: false,
    };
    driver.run(program)
}

// The calls that a run makes are its own account: what is shown by them is what the run writes.
pub fn calls_stand()
    ensures { ShownIsWritten }
{}
