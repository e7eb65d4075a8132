// One turn of the machine in its lent memory: an operation of the program's code, or what comes between two lines.
//
// Memory and registers travel side by side and in no struct: of a memory behind a field a proof doesn't know the length, and each method would have to
// promise that the loan stays the same. Each operation answers a Turn, also one that is always followed by another: all have one shape of answer, so that
// `perform` hands it on and its contract is one equation with the outcome that the definition names; an operation that answers `()` would need a case of
// its own in the definitions.
#![tactic(auto)]

pub mod between;
pub mod comparing;
pub mod dispatch;
pub mod fields;
pub mod jumps;
pub mod numbers;
pub mod ops;
pub mod registers;
pub mod slots;
pub mod stack;
pub mod texts;
pub mod worth;

ghost use Rattle.std.specs.Prelude.{◌≡◌};
ghost use Rattle.interp.specs.Outcomes.{refusal_number};

// The longest line and the longest text that the language has.
pub const LONGEST: usize = 65_535;

// What comes of a turn, unless it is refused. One that ends or is refused leaves memory and registers so that the same would come again; only that there
// is no room may leave texts moved together.
#[derive(Clone, Copy)]
pub enum Turn {
    // another turn can follow
    On,
    // nothing can be done before more has come
    Ask,
    // the run is over, with this number
    Done(u64),
}

// Why a run is refused.
#[derive(Clone, Copy)]
pub enum Refusal {
    // an operation that this machine does not have
    Unknown,
    // a number out of bounds
    OutOfBounds,
    // a division by 0
    ByZero,
    // a text or a line that is too long
    TooLong,
    NoRoom,
    // a number that no field or exit has
    NoSuchNumber,
    // what the code states
    Stated(u64),
}

impl Refusal {
    // The number that is told. By name, and not by `From`: contracts read it as `refusal_number`.
    pub fn number(self) -> u64
        ensures { result ≡ refusal_number self }
    {
        match self {
            Refusal::Unknown => 2,
            Refusal::OutOfBounds => 3,
            Refusal::ByZero => 4,
            Refusal::TooLong => 7,
            Refusal::NoRoom => 8,
            Refusal::NoSuchNumber => 9,
            Refusal::Stated(k) => k,
        }
    }
}
