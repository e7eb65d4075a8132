// What the functions of this crate come to, in the words of the specification.
ghost use Rattle.lines.specs.Laws.{BuildRight, FreshRight, ScanRight, TakeRight, LastRight, LineRight, RecutRight, NthRight};

// A scan begins with nothing looked through.
pub fn fresh_stands()
    ensures { FreshRight }
{}

// A scan finds the first line with its fields, wherever it goes on from.
pub fn scan_stands()
    ensures { ScanRight }
{}

// A piece waits behind what waited before, and a scan goes on as if all had come at once.
pub fn take_stands()
    ensures { TakeRight }
{}

// The last line is what waits in the end.
pub fn last_stands()
    ensures { LastRight }
{}

// A text that is cut anew has its fields.
pub fn recut_stands()
    ensures { RecutRight }
{}

// A field is where it is said to be.
pub fn nth_stands()
    ensures { NthRight }
{}

// A line with a field changed is the specification's, once its gap is filled; it is refused just where it would be too long.
pub fn build_stands()
    ensures { BuildRight }
{}

// Bytes as a line of their own have their fields.
pub fn line_stands()
    ensures { LineRight }
{}
