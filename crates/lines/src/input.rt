// The bytes that came and are in no line yet.
ghost use Rattle.std.specs.Prelude.{◌≡◌, ℕ, ◌+◌, ◌-◌, ◌*◌, ◌<◌, ◌≤◌, min, true, length, drop};
ghost use Rattle.store.specs.Words.{window};
ghost use Rattle.regions.specs.Parts.{parts, with_fields, with_lines};
ghost use Rattle.lines.specs.Cutting.{cuts_of};
ghost use Rattle.lines.specs.Scanning.{scan_on, scan_of, found_of, after_scan, waits_at, waiting, taken_lines, after_taken, last_words, last_of, after_last};

use crate::cutting::{Cut, close, fresh, len_at, pass};
use crate::line::Line;
use regions::Memory;
use regions::fields::Place;
use regions::lines::{byte_within, move_lines, put_text};
use store::lent::Lent;

// How many bytes the buffer has: those of the longest line, and a piece.
pub const ROOM: usize = 69_632;

#[derive(Clone, Copy)]
pub struct Input {
    // the bytes that wait are those from here ..
    pub from: usize,
    // .. to here
    pub to: usize,
    // how far they are looked through for the next line
    pub cut: Cut,
    // the end was told
    pub ended: bool,
}

// Where the waiting bytes are.
fn waits(input: Input) -> Place
    ensures { result ≡ waits_at input }
{
    Place {
        start: input.from,
        len: input.to.saturating_sub(input.from),
    }
}

// Moves the waiting bytes to the front, and puts a piece behind them, as much of it as has room.
pub fn take_in(mem: &mut Memory, input: &mut Input, piece: &[u8])
    ensures lines { parts mem.new ≡ with_lines (parts mem.old) (taken_lines (parts mem.old).lines (waiting input.old (parts mem.old).lines) piece.now) }
    ensures input { input.new ≡ after_taken input.old (waiting input.old (parts mem.old).lines) piece.now }
{
    let n = len_at(waits(*input));
    let k = piece.len().min(ROOM.saturating_sub(n));
    move_lines(mem, input.from, 0, n);
    let taken = Lent {
        piece: &piece[0..k],
    };
    put_text(mem, n, &taken);
    input.from = 0;
    input.to = n + k;
}

// Goes on with the n bytes from byte `from` on, to the end of a line, which it says, or of the bytes. How far it has come is kept in the cut till more has
// come, and so the loop counts there.
fn scan_on(mem: &mut Memory, from: usize, n: usize, cut: &mut Cut) -> bool
    requires { n ≤ 200704 - from }
    ensures noted { parts mem.new ≡ with_fields (parts mem.old) (scan_on (drop cut.old.at (window from n (parts mem.old).lines)) (cuts_of (parts mem.old).fields cut.old)).cuts.words }
    ensures cut { cut.new ≡ (scan_on (drop cut.old.at (window from n (parts mem.old).lines)) (cuts_of (parts mem.old).fields cut.old)).cuts.cut }
    ensures found { result ≡ (scan_on (drop cut.old.at (window from n (parts mem.old).lines)) (cuts_of (parts mem.old).fields cut.old)).found }
    ensures inside { result ≡ true → cut.new.at < n }
{
    let mut c = *cut;
    while c.at < n {
        let b = byte_within(mem, from + c.at);
        // most bytes are above these, so that is asked first
        if b > b' ' {
            c.at += 1;
            continue;
        }
        if b == b'\n' {
            c.fields = close(mem, c);
            *cut = c;
            return true;
        }
        c = pass(mem, c, b);
    }
    *cut = c;
    false
}

// Looks for the next line, from where it has come to before, and notes the fields that it passes. None, where what waits is part of a line.
pub fn scan(mem: &mut Memory, input: &mut Input) -> Option<Line>
    ensures noted { parts mem.new ≡ with_fields (parts mem.old) (scan_of (parts mem.old) input.old).cuts.words }
    ensures input { input.new ≡ after_scan input.old (scan_of (parts mem.old) input.old) }
    ensures found { result ≡ found_of input.old (scan_of (parts mem.old) input.old) }
{
    let n = len_at(waits(*input));
    let mut cut = input.cut;
    if scan_on(mem, input.from, n, &mut cut) {
        let place = Place {
            start: input.from,
            len: cut.at,
        };
        input.from += cut.at + 1;
        input.cut = fresh();
        Some(Line {
            place,
            fields: cut.fields,
        })
    } else {
        input.cut = cut;
        None
    }
}

// At the end: what waits is a line, if it has bytes.
pub fn last_line(mem: &mut Memory, input: &mut Input) -> Option<Line>
    ensures noted { parts mem.new ≡ with_fields (parts mem.old) (last_words (parts mem.old) input.old) }
    ensures input { input.new ≡ after_last (parts mem.old) input.old }
    ensures line { result ≡ last_of (parts mem.old) input.old }
{
    let len = len_at(waits(*input));
    if len == 0 {
        return None;
    }
    let start = input.from;
    let fields = close(mem, input.cut);
    input.from = start + len;
    input.cut = fresh();
    Some(Line {
        place: Place { start, len },
        fields,
    })
}
