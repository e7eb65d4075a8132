// A line with one field changed: all fields are laid into a buffer of its own, with a blank between, and room is left for the new one.
ghost use Rattle.std.specs.Prelude.{◌≡◌, ℕ, ◌+◌, ◌-◌, ◌*◌, ◌<◌, ◌≤◌, max, length, Some, None, Option, nat_le};
ghost use Rattle.language.specs.Text.{pick};
ghost use Rattle.regions.specs.Parts.{parts};
ghost use Rattle.lines.specs.Building.{buffer_of, piece_of, pieces, total, laid, laid_one, built, after_built, after_set, after_line, line_of};

use crate::cutting::recut;
use crate::line::{Line, nth_field};
use regions::Memory;
use regions::fields::{Place, set_field};
use regions::lines::{move_lines, put_line_byte, put_text};
use store::bytes::Bytes;

// Where the two buffers begin, and how many bytes each has: those of the longest line, and a blank.
const FIRST: usize = 69_632;

const SECOND: usize = 135_168;

const ROOM: usize = 65_536;

// Where a buffer begins in which a line does not lie.
pub fn free_buffer(line: Line) -> usize
    ensures { result ≡ buffer_of line }
{
    if line.place.start < SECOND {
        SECOND
    } else {
        FIRST
    }
}

// What is laid down for a field: some bytes are copied, and there is room for so many.
#[derive(Clone, Copy)]
struct Piece {
    from: usize,
    copy: usize,
    room: usize,
}

// Lays down the piece for field i + 1, at byte `at` of the buffer that begins at `start`.
fn lay(mem: &mut Memory, p: Piece, start: usize, i: usize, at: usize)
    requires { (start ≤ 135168) × (at + p.room < 65536) }
    ensures { parts mem.new ≡ laid_one (parts mem.old) start i at p }
{
    let place = Place {
        start: at,
        len: p.room,
    };
    set_field(mem, i, place);
    move_lines(mem, p.from, start + at, p.copy);
    put_line_byte(mem, start + at + p.room, b' ');
}

// A line that is to have room for `len` bytes as its field n, and so many fields.
#[derive(Clone, Copy)]
struct Change {
    line: Line,
    n: usize,
    len: usize,
    fields: usize,
}

impl Change {
    // The piece for field i + 1.
    fn piece(self, mem: &Memory, i: usize) -> Piece
        requires { i < 18446744073709551615 }
        ensures { result ≡ piece_of (parts mem.now).fields self.line self.n self.len i }
    {
        if i + 1 == self.n {
            return Piece {
                from: 0,
                copy: 0,
                room: self.len,
            };
        }
        let old = nth_field(mem, self.line, i + 1);
        Piece {
            from: old.start,
            copy: old.len,
            room: old.len,
        }
    }

    // How many bytes all pieces take, each with a blank behind it, if they have room in a buffer.
    fn total(self, mem: &Memory) -> Option<usize>
        ensures { result ≡ pick (nat_le (total (pieces (parts mem.now).fields self.line self.n self.len self.fields 0)) 65536) (Some (total (pieces (parts mem.now).fields self.line self.n self.len self.fields 0))) None }
    {
        let mut sum = 0;
        for i in 0..self.fields {
            let p = self.piece(mem, i);
            if p.room >= ROOM - sum {
                return None;
            }
            sum += p.room + 1;
        }
        Some(sum)
    }

    // Lays down all pieces.
    fn lay(self, mem: &mut Memory)
        requires { total (pieces (parts mem.old).fields self.line self.n self.len self.fields 0) ≤ 65536 }
        ensures { parts mem.new ≡ laid (parts mem.old) (buffer_of self.line) 0 0 (pieces (parts mem.old).fields self.line self.n self.len self.fields 0) }
    {
        let start = free_buffer(self.line);
        let mut at = 0;
        for i in 0..self.fields {
            let p = self.piece(mem, i);
            lay(mem, p, start, i, at);
            at += p.room + 1;
        }
    }
}

// The line with room for `len` bytes as its field n: the caller fills it, where `nth_field` says. None, and nothing is changed, if the new line would
// have more than 65,535 bytes.
pub fn build(mem: &mut Memory, line: Line, n: usize, len: usize) -> Option<Line>
    ensures laid { parts mem.new ≡ after_built (parts mem.old) line n len }
    ensures line { result ≡ built (parts mem.old) line n len }
{
    let fields = line.fields.max(n);
    let change = Change {
        line,
        n,
        len,
        fields,
    };
    let bytes = change.total(mem)?;
    change.lay(mem);
    let place = Place {
        start: free_buffer(line),
        len: bytes.saturating_sub(1),
    };
    Some(Line { place, fields })
}

// The line with the bytes of a value as its field n; None, and nothing is changed, if it would have more than 65,535 bytes.
pub fn set_line_field<T: Bytes>(mem: &mut Memory, line: Line, n: usize, value: &T) -> Option<Line>
    ensures filled { parts mem.new ≡ after_set (parts mem.old) line n (T.Bytes.bytes value.now) }
    ensures line { result ≡ built (parts mem.old) line n (length (T.Bytes.bytes value.now)) }
{
    let new = build(mem, line, n, value.len())?;
    let gap = nth_field(mem, new, n);
    put_text(mem, gap.start, value);
    Some(new)
}

// The bytes of a value as a line of their own, in a buffer in which the line before does not lie.
pub fn set_line<T: Bytes>(mem: &mut Memory, line: Line, value: &T) -> Line
    ensures cut { parts mem.new ≡ after_line (parts mem.old) line (T.Bytes.bytes value.now) }
    ensures line { result ≡ line_of (parts mem.old) line (T.Bytes.bytes value.now) }
{
    let place = Place {
        start: free_buffer(line),
        len: value.len(),
    };
    put_text(mem, place.start, value);
    let fields = recut(mem, place);
    Line { place, fields }
}
