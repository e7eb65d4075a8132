// Whether a quoted text is a pattern. Of what is read only brackets that are still open have to be known, so a counter is the stack.
ghost use Rattle.std.specs.Prelude.{◌≡◌, ℕ, ◌≤◌, not, length, drop, Some};
ghost use Rattle.language.specs.Text.{none_of};
ghost use Rattle.language.specs.Program.{quote_part, pattern_of};
ghost use Rattle.lexer.specs.Scanning.{MeantIs, SpanSays, SetEnds, AtomSays, PlainByte, a_mark, Scans, Scanned, Opened};
ghost use Rattle.lexer.specs.Quotes.{QuoteGoes};

// A byte that is meant in a quoted text, and where the next one begins.
#[derive(Clone, Copy)]
pub struct Meant {
    pub byte: u8,
    pub next: usize,
}

// The byte that is meant at a place of a quoted text, unless the text ends there.
pub fn byte_at(text: &[u8], i: usize) -> Option<Meant>
    ensures meant { MeantIs text.now i result }
    ensures on { QuoteGoes text.now i result }
{
    match (*text.get(i)?, text.get(i + 1).copied()) {
        (b'"', _) => None,
        (b'\\', Some(b'n')) => Some(Meant {
            byte: b'\n',
            next: i + 2,
        }),
        (b'\\', Some(byte)) => Some(Meant { byte, next: i + 2 }),
        (byte, _) => Some(Meant { byte, next: i + 1 }),
    }
}

// Where a span of a set ends whose first byte ends at `i`: a-c is one, unless the - stands last.
fn past_span(text: &[u8], i: usize) -> usize
    ensures { SpanSays text.now i result }
{
    if let Some(dash) = byte_at(text, i)
        && dash.byte == b'-'
        && let Some(high) = byte_at(text, dash.next)
        && high.byte != b']'
    {
        high.next
    } else {
        i
    }
}

// Where a set ends, of what follows [ or [^, unless it has no closing ]; a ] that stands first is itself. A loop, as in the other two that read a pattern: how
// far a step goes is said by what stands there.
fn past_set(text: &[u8], from: usize) -> Option<usize>
    ensures { SetEnds text.now from result }
{
    let first = byte_at(text, from)?;
    let mut i = past_span(text, first.next);
    while let Some(c) = byte_at(text, i) {
        if c.byte == b']' {
            return Some(c.next);
        }
        i = past_span(text, c.next);
    }
    None
}

// Where a set ends that begins with the [ of `c`, if it has a closing ].
fn past_brackets(text: &[u8], c: Meant) -> Option<usize>
    requires { c.byte ≡ 91 }
    ensures { AtomSays text.now c result }
{
    let first = byte_at(text, c.next)?;
    if first.byte == b'^' {
        past_set(text, first.next)
    } else {
        past_set(text, c.next)
    }
}

// Where an atom ends that begins with `c`, if it is one and no bracket.
fn past_atom(text: &[u8], c: Meant) -> Option<usize>
    requires inside { c.next ≤ length text.now }
    requires plain { PlainByte c.byte }
    ensures { AtomSays text.now c result }
{
    match c.byte {
        b'\\' => Some(byte_at(text, c.next)?.next),
        b'[' => past_brackets(text, c),
        _ => Some(c.next),
    }
}

// How far a scan has come: where it stands, how many brackets are open, and whether marks may follow.
#[derive(Clone, Copy)]
pub struct Scan {
    at: usize,
    nested: usize,
    marks: bool,
}

// Whether a byte says how often what stands before it is repeated.
fn is_mark(c: u8) -> bool
    ensures { result ≡ a_mark c }
{
    matches!(c, b'*' | b'+' | b'?')
}

// Takes the byte `c` into a scan, unless the text cannot be a pattern.
fn scan_on(text: &[u8], s: Scan, c: Meant) -> Option<Scan>
    requires nested { s.nested ≤ s.at }
    requires meant { MeantIs text.now s.at (Some c) }
    ensures scanned { (from : ℕ) → Scans text.now from s → Scanned text.now from c result }
    ensures opened { Opened s result }
{
    if is_mark(c.byte) {
        return if s.marks {
            Some(Scan { at: c.next, ..s })
        } else {
            None
        };
    }
    match c.byte {
        b'(' => Some(Scan {
            at: c.next,
            nested: s.nested + 1,
            marks: false,
        }),
        b')' => Some(Scan {
            at: c.next,
            nested: s.nested.checked_sub(1)?,
            marks: true,
        }),
        b'|' => Some(Scan {
            at: c.next,
            marks: false,
            ..s
        }),
        _ => Some(Scan {
            at: past_atom(text, c)?,
            marks: true,
            ..s
        }),
    }
}

// Whether the quoted text whose bytes begin at `from` is a pattern.
pub fn is_pattern(text: &[u8], from: usize) -> bool
    requires { from ≤ length text.now }
    ensures { result ≡ not (none_of (pattern_of (quote_part (drop from text.now)))) }
{
    let mut s = Scan {
        at: from,
        nested: 0,
        marks: false,
    };
    while let Some(c) = byte_at(text, s.at) {
        match scan_on(text, s, c) {
            Some(t) => s = t,
            None => return false,
        }
    }
    s.nested == 0
}
