// Parts of a text: where another text stands in it, and pieces of it.
ghost use Rattle.std.specs.Prelude.{◌≡◌, ℕ, ◌+◌, ◌^◌, ◌<◌, ◌≤◌, List, length, take, drop};
ghost use Rattle.language.specs.Text.{same};
ghost use Rattle.language.specs.Meaning.{place_of, capital, cut_from};
ghost use Rattle.store.specs.Numbers.{number};
ghost use Rattle.values.specs.Fields.{cut};

use crate::fields::Place;
use store::bytes::Bytes;

// Whether b stands in a at `from`. `all` over the range was tried: it tells the proof of the closure's calls, one by one, and the goal that they come to `same`
// stayed open.
fn stands_at<A: Bytes, B: Bytes>(a: &A, b: &B, from: usize) -> bool
    requires { (from + length (B.Bytes.bytes b.now) ≤ length (A.Bytes.bytes a.now)) × (length (A.Bytes.bytes a.now) < 2 ^ 64) }
    ensures { result ≡ same (B.Bytes.bytes b.now) (take (length (B.Bytes.bytes b.now)) (drop from (A.Bytes.bytes a.now))) }
{
    for k in 0..b.len() {
        if b.at(k) != a.at(from + k) {
            return false;
        }
    }
    true
}

// Where b stands first in a, counted from 1; 0 if it doesn't, as the language's own function answers.
pub fn place_of<A: Bytes, B: Bytes>(a: &A, b: &B) -> usize
    ensures { result ≡ place_of (A.Bytes.bytes a.now) (B.Bytes.bytes b.now) }
{
    let m = a.len();
    let n = b.len();
    if n == 0 {
        return 1;
    }
    if n > m {
        return 0;
    }
    for i in 0..=m - n {
        if stands_at(a, b, i) {
            return i + 1;
        }
    }
    0
}

// The capital of a letter; any other byte is itself.
pub fn capital(b: u8) -> u8
    ensures { result ≡ capital b }
{
    b.to_ascii_uppercase()
}

// Where `count` bytes from the position `from` on stand, counted from 1, in a text of so many bytes; positions before the first have no bytes.
pub fn part_of(len: usize, from: i64, count: i64) -> Place
    ensures inside { result.start + result.len ≤ len }
    ensures part { (b : List ℕ) → length b ≡ len → cut b result ≡ cut_from (number from) (number count) b }
{
    if count <= 0 {
        return Place::default();
    }
    let wanted = count as usize;
    if from <= 0 {
        let before = from.unsigned_abs() as usize + 1;
        return Place {
            start: 0,
            len: wanted.saturating_sub(before).min(len),
        };
    }
    let start = (from as usize - 1).min(len);
    Place {
        start,
        len: wanted.min(len - start),
    }
}
