// The meaning as a machine. specs/ has a stack machine, the code that it runs for a program, and what an engine in memory owes; proofs/ shows that
// the machine does what the language means, and that an engine which keeps what it owes keeps the whole promise. The functions below do nothing when
// they are called; each one's contract is a theorem, and the crate is accepted only with its proof. specs/Lib.antt leads through the argument.
#![tactic(auto)]

ghost use Rattle.language.specs.Promise.{EndsRight, FirstLongest, SwapNone, ItemsRight};
ghost use Rattle.semantics.specs.Example.{SmallExample};
ghost use Rattle.semantics.specs.Theorems.{Forward, Back, Ended, InPieces, WaitingDone, Room, ProperEnds, FullNotes, NotedCode, ShortCode, SoundRuns, FieldsPlaced, Promised};

// Whatever the meaning comes to, the machine comes to.
pub fn forward_stands()
    ensures { Forward }
{}

// What the machine has written is meant.
pub fn back_stands()
    ensures { Back }
{}

// A run of the machine that has ended, ended as meant.
pub fn ended_stands()
    ensures { Ended }
{}

// A run that is given its lines in pieces is the run over all of them.
pub fn pieces_stand()
    ensures { InPieces }
{}

// Where the machine waits, all of the whole lines so far is done.
pub fn waiting_stands()
    ensures { WaitingDone }
{}

// Where more was noted than may be held, there is no room.
pub fn room_stands()
    ensures { Room }
{}

// A run ends only with the last line, with a number below 256, or with a fault.
pub fn proper_ends_stand()
    ensures { ProperEnds }
{}

// At a note of more than may be held there is no room.
pub fn full_stands()
    ensures { FullNotes }
{}

// Everything that a run comes to is sound: texts and numbers within their limits, names that the program sets, a stack on which each instruction finds
// what it takes, and only numbers that are told apart at the end.
pub fn runs_stand()
    ensures { SoundRuns }
{}

// Fields are places in the line.
pub fn places_stand()
    ensures { FieldsPlaced }
{}

// What an instruction pushes or keeps is noted before the next is.
pub fn notes_stand()
    ensures { NotedCode }
{}

// Code is short: at most six instructions for each byte of the program.
pub fn sizes_stand()
    ensures { ShortCode }
{}

// An engine that keeps what is owed turn by turn keeps the whole promise.
pub fn promise_stands()
    ensures { Promised }
{}

// The ends of matches go together as patterns do: one after the other, either, none or more.
pub fn ends_stand()
    ensures { EndsRight }
{}

// The first match is the first, and the longest there.
pub fn first_match_stands()
    ensures { FirstLongest }
{}

// Without a match nothing is swapped.
pub fn swap_stands()
    ensures { SwapNone }
{}

// Tables hold what was set last.
pub fn tables_stand()
    ensures { ItemsRight }
{}

// A small program has the code that it should have, and writes what it should.
pub fn example_stands()
    ensures { SmallExample }
{}
