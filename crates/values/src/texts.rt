// Runs of bytes of a kind, and texts taken as numbers.
ghost use Rattle.std.specs.Prelude.{◌≡◌, ℕ, ◌+◌, ◌^◌, ◌<◌, min, Bool, not, take, drop};
ghost use Rattle.language.specs.Text.{text, blank, digit, leading, number_of, looks};
ghost use Rattle.store.specs.Numbers.{number};
ghost use Rattle.values.specs.Texts.{run, Runs, dash, plain};

use store::bytes::Bytes;
pub use store::bytes::is_blank;

// Of more digits than these the first ones count.
const DIGITS: usize = 18;

// A kind of bytes.
pub trait Kind {
    ghost test: { ℕ → Bool };

    fn has(b: u8) -> bool
        ensures { result ≡ test b };
}

// Blanks and tabs.
#[derive(Drop)]
pub struct Blank;

// Decimal digits.
#[derive(Drop)]
pub struct Digit;

// All bytes that are no blanks.
#[derive(Drop)]
pub struct Solid;

pub fn is_digit(b: u8) -> bool
    ensures { result ≡ digit b }
{
    b.is_ascii_digit()
}

impl Kind for Blank {
    ghost test = { blank };

    fn has(b: u8) -> bool {
        is_blank(b)
    }
}

impl Kind for Digit {
    ghost test = { digit };

    fn has(b: u8) -> bool {
        is_digit(b)
    }
}

impl Kind for Solid {
    ghost test = { λ c. not (blank c) };

    fn has(b: u8) -> bool {
        !Blank::has(b)
    }
}

// Where the run of bytes of the kind ends that begins at `from`. `find` over the range was tried: it tells the proof of the closure's calls, one by one, and the
// goal that the first hit is where the run ends stayed open.
pub fn past<K: Kind, T: Bytes>(t: &T, from: usize) -> usize
    ensures { result ≡ from + run K.Kind.test (drop from (T.Bytes.bytes t.now)) }
{
    let end = t.len().max(from);
    for i in from..end {
        if !K::has(t.at(i)) {
            return i;
        }
    }
    end
}

// A run is as long as it can be.
pub fn runs_stand()
    ensures { Runs }
{}

// Behind the minus that stands at `from`, if one does.
fn past_minus<T: Bytes>(t: &T, from: usize) -> usize
    ensures { result ≡ from + dash (drop from (T.Bytes.bytes t.now)) }
{
    if from < t.len() && t.at(from) == b'-' {
        from + 1
    } else {
        from
    }
}

// What the digits from `from` on are worth, and how many of them count.
fn digits_from<T: Bytes>(t: &T, from: usize) -> (u64, usize)
    ensures worth { result.0 ≡ leading 0 (take 18 (drop from (T.Bytes.bytes t.now))) }
    ensures small { result.0 < 10 ^ 18 }
    ensures count { result.1 ≡ min 18 (run digit (drop from (T.Bytes.bytes t.now))) }
{
    let count = t.len().saturating_sub(from).min(DIGITS);
    let mut n: u64 = 0;
    for k in 0..count {
        let b = t.at(from + k);
        if !is_digit(b) {
            return (n, k);
        }
        n = 10 * n + u64::from(b - b'0');
    }
    (n, count)
}

// What a text of digits alone is worth; none where it has other bytes, no bytes or more digits than count.
pub fn plain_digits<T: Bytes>(t: &T) -> Option<u64>
    ensures { result ≡ plain (T.Bytes.bytes t.now) }
{
    let count = t.len();
    if count == 0 {
        return None;
    }
    if count > DIGITS {
        return None;
    }
    let (n, digits) = digits_from(t, 0);
    if digits == count { Some(n) } else { None }
}

// A text taken as a number.
pub fn number_of<T: Bytes>(t: &T) -> i64
    ensures { number result ≡ number_of (text (T.Bytes.bytes t.now)) }
{
    if let Some(n) = plain_digits(t) {
        return n as i64;
    }
    let start = past::<Blank, T>(t, 0);
    let first = past_minus(t, start);
    let (worth, _) = digits_from(t, first);
    let n = worth as i64;
    if first > start { -n } else { n }
}

// Whether a text looks like a number.
pub fn looks<T: Bytes>(t: &T) -> bool
    ensures { result ≡ looks (text (T.Bytes.bytes t.now)) }
{
    let start = past::<Blank, T>(t, 0);
    let first = past_minus(t, start);
    let end = past::<Digit, T>(t, first);
    let digits = end - first;
    if digits == 0 || digits > DIGITS {
        return false;
    }
    past::<Blank, T>(t, end) >= t.len()
}
