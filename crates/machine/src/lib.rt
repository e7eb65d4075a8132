// One step of the machine.
#![tactic(auto)]

pub mod drive;

ghost use Rattle.std.specs.Prelude.{◌≡◌, length};
ghost use Rattle.language.specs.Run.{Steady};
ghost use Rattle.machine.specs.Entry.{own, act_number, told_number, StepSays, step_fits, TellSays, tell_fits, lengths_fit, MayTell, bytes_of, told_of};

// How many numbers the machine's memory has.
pub const MEMORY: usize = 262_144;

// How many bytes a piece or a row has at most.
pub const ROW: usize = 4096;

// What the machine does in a step. A refusal stands among the acts and is no Err, since the specification and C count four acts.
#[derive(Clone, Copy, Debug, PartialEq, Eq)]
pub enum Told {
    // It asks for the next piece.
    More,
    // It writes so many bytes: those at the front of the row.
    Write(u64),
    // The run is done, with this number.
    Done(u64),
    // It refuses: 0 what doesn't fit, 1 what is no program, 2 what isn't known, and more, by the language's own numbers, which C gets as they are.
    No(u64),
}

impl Told {
    // Which act it is, and its number, for C; an ask has none.
    fn numbers(self) -> (u64, u64)
        ensures act { result.0 ≡ act_number self }
        ensures number { result.1 ≡ told_number self }
    {
        match self {
            Told::More => (0, 0),
            Told::Write(n) => (1, n),
            Told::Done(k) => (2, k),
            Told::No(k) => (3, k),
        }
    }
}

// What the machine is told.
#[derive(Clone, Copy, Debug, PartialEq, Eq)]
pub enum Event<'a> {
    // A program's text; the memory is all 0.
    Program(&'a [u8]),
    // The piece that it asked for.
    Piece(&'a [u8]),
    // There is none.
    NoMore,
    // What was to be written is written.
    Next,
}

impl<'a> Event<'a> {
    // The event of a kind, if there is one with so many bytes: 0 a program, 1 a piece, 2 no more, 3 go on.
    #[tactic(auto, unfolding(crate::specs::Entry::event_of))]
    fn of(kind: u64, piece: &'a [u8]) -> Option<Self>
        ensures { MayTell kind piece.now result }
    {
        if piece.len() > ROW {
            return None;
        }
        match kind {
            0 => Some(Event::Program(piece)),
            1 => Some(Event::Piece(piece)),
            2 => Some(Event::NoMore),
            3 => Some(Event::Next),
            _ => None,
        }
    }

    // How many bytes come with it.
    fn came_with(self) -> usize
        ensures { result ≡ length (bytes_of self.entry) }
    {
        match self {
            Event::Program(bytes) | Event::Piece(bytes) => bytes.len(),
            Event::NoMore | Event::Next => 0,
        }
    }
}

// Whether these are lengths that the machine works with.
fn fits(memory: usize, piece: usize, out: usize) -> bool
    ensures { result ≡ lengths_fit memory piece out }
{
    memory == MEMORY && piece <= ROW && out >= ROW
}

// One step of the machine over an event. Memory and row are slices and no arrays: what doesn't fit is refused, not ruled out.
pub fn tell(memory: &mut [u64], event: Event, out: &mut [u8]) -> Told
    ensures { TellSays memory.old (told_of event.entry) out.old (tell_fits memory.old (bytes_of event.entry) out.old) result memory.new out.new }
{
    if !fits(memory.len(), event.came_with(), out.len()) {
        return Told::No(0);
    }
    Told::No(2)
}

// One step of the machine over a kind and its bytes: the specification's own signature, which C has, too.
pub fn step(memory: &mut [u64], kind: u64, piece: &[u8], out: &mut [u8]) -> Told
    ensures steady { Steady own }
    ensures says { StepSays memory.old kind piece.now out.old (step_fits memory.old kind piece.now out.old) result memory.new out.new }
{
    match Event::of(kind, piece) {
        Some(event) => tell(memory, event, out),
        None => Told::No(0),
    }
}

// The same step in numbers, as C calls it: the act is returned (0 ask, 1 write, 2 done, 3 refused), and its number is left in `number`.
pub fn movkresan_step(
    memory: &mut [u64],
    kind: u64,
    piece: &[u8],
    out: &mut [u8],
    number: &mut u64,
) -> u64
    ensures { (told : Told) × (result ≡ act_number told) × (number.new ≡ told_number told) × StepSays memory.old kind piece.now out.old (step_fits memory.old kind piece.now out.old) told memory.new out.new }
{
    let (act, its_number) = step(memory, kind, piece, out).numbers();
    *number = its_number;
    act
}
