// The language of reports: its specification stands in specs/. The functions below do nothing when they are called; each one's contract is a law of
// the language, and the crate is accepted only with its proof.
#![tactic(auto)]

ghost use Rattle.language.specs.Promise.{Order, FieldsAgain, InParts, OnlyMore, DeeperSame};
ghost use Rattle.language.specs.Examples.{Worked};

// The worked examples: each program writes what the table says, and ends.
pub fn examples_stand()
    ensures { Worked }
{}

// Values that look like numbers have one order: 007 and 7 are never told apart in one place and taken for the same in another.
pub fn order_stands()
    ensures { Order }
{}

// Fields that are joined by blanks and cut again are the fields.
pub fn fields_stand()
    ensures { FieldsAgain }
{}

// Lines can be done in two parts: where the first part went on to some state, all of them come to what the second part comes to from there.
pub fn parts_stand()
    ensures { InParts }
{}

// What was written stays written, however much deeper a run may go.
pub fn writing_stands()
    ensures { OnlyMore }
{}

// A run that is over comes to the same however deep it may go.
pub fn depth_stands()
    ensures { DeeperSame }
{}
