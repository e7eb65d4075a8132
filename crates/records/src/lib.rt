// The current line, the bytes that wait and what is printed: what memory has of them, beside the meaning. The functions below do nothing when they
// are called; each one's contract is a theorem, and the crate is accepted only with its proof.
#![tactic(auto)]

ghost use Rattle.records.specs.Laws.{LinesFollow, RecordsKept, ToldRight, FieldsRead, FieldsSet};
ghost use Rattle.records.specs.Prints.{PrintsRight, OnceOut};
ghost use Rattle.records.specs.Saving.{SavedRight, ValuesKept};
ghost use Rattle.records.specs.Memory.{MemoryStays, NextStops};

// Between lines a turn takes the next line, begins the rules for the end, asks or refuses as the abstract machine does.
pub fn lines_follow()
    ensures { LinesFollow }
{}

// What else a turn changes doesn't matter to lines.
pub fn records_kept()
    ensures { RecordsKept }
{}

// A piece waits behind the bytes before it.
pub fn told_right()
    ensures { ToldRight }
{}

// A field is read where memory has it.
pub fn fields_read()
    ensures { FieldsRead }
{}

// A field is set as it is meant.
pub fn fields_set()
    ensures { FieldsSet }
{}

// Prints write what is meant, in one row after the other.
pub fn prints_right()
    ensures { PrintsRight }
{}

// However far a print has come, memory will be the same once it is out.
pub fn once_out()
    ensures { OnceOut }
{}

// What a step leaves in memory is what the next one finds.
pub fn saved_right()
    ensures { SavedRight }
{}

// An operation changes only the stack, the slots and the texts, and leaves words.
pub fn values_kept()
    ensures { ValuesKept }
{}

// Memory keeps its sizes and consists of words, whatever a turn does.
pub fn memory_stays()
    ensures { MemoryStays }
{}

// A turn between lines stops only where the run does.
pub fn next_stops()
    ensures { NextStops }
{}
