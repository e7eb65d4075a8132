// Copies of texts.
ghost use Rattle.std.specs.Prelude.{◌≡◌, ℕ, ◌+◌, ◌-◌, ◌*◌, ◌^◌, ◌<◌, ◌≤◌, min, length, take, drop};
ghost use Rattle.std.proofs.Math.Seq.{paste};
ghost use Rattle.store.specs.Words.{bytes_of, over};
ghost use Rattle.store.specs.Short.{Read, short_of};

use crate::bytes::Bytes;
use crate::short::{LONGEST, Short};

// Copies n words of bytes of t, from byte `from` of it on. Where it begins and how many stay numbers beside t, here and in `bytes_out`: a struct for them
// would live for one call, and its limits would be those of t and `out`, so it would carry no fact.
fn words_out<T: Bytes>(t: &T, from: usize, n: usize, out: &mut [u8], at: usize)
    requires { (from + 8 * n ≤ length (T.Bytes.bytes t.now)) × ((from + 8 * n < 2 ^ 64) × (at + 8 * n ≤ length out.old)) }
    ensures { out.new ≡ paste out.old at (drop from (T.Bytes.bytes t.now)) (8 * n) }
{
    for i in 0..n {
        let place = at + 8 * i;
        out[place..place + 8].copy_from_slice(&t.word(from + 8 * i).to_le_bytes());
    }
}

// Copies n bytes of t, from byte `from` of it on, one by one: those that are left behind the last whole word.
fn bytes_out<T: Bytes>(t: &T, from: usize, n: usize, out: &mut [u8], at: usize)
    requires { (from + n ≤ length (T.Bytes.bytes t.now)) × ((from + n < 2 ^ 64) × (at + n ≤ length out.old)) }
    ensures { out.new ≡ paste out.old at (drop from (T.Bytes.bytes t.now)) n }
{
    for i in 0..n {
        out[at + i] = t.at(from + i);
    }
}

// Copies the bytes of t from `from` on to `out`, from `at` on, as many as there are and have room, and says how many.
pub fn copy_out<T: Bytes>(t: &T, from: usize, out: &mut [u8], at: usize) -> usize
    ensures count { result ≡ min (length (T.Bytes.bytes t.now) - from) (length out.old - at) }
    ensures copied { out.new ≡ over out.old at (drop from (T.Bytes.bytes t.now)) }
{
    let left = t.len().saturating_sub(from);
    let room = out.len().saturating_sub(at);
    let n = left.min(room);
    let whole = 8 * (n / 8);
    if n > 0 {
        words_out(t, from, n / 8, out, at);
        bytes_out(t, from + whole, n - whole, out, at + whole);
    }
    n
}

// Eight bytes as a word.
fn word_of(bytes: &[u8; LONGEST]) -> u64
    ensures { Read bytes.now result }
{
    u64::from_le_bytes(*bytes)
}

// The first eight bytes of a text as a word, with 0 where it has none: by one read or by eight, since a copy of them would be read from memory again.
fn first_word<T: Bytes>(t: &T) -> u64
    ensures { Read (take LONGEST (T.Bytes.bytes t.now)) result }
{
    if t.len() >= LONGEST {
        return t.word(0);
    }
    word_of(&[
        t.at(0),
        t.at(1),
        t.at(2),
        t.at(3),
        t.at(4),
        t.at(5),
        t.at(6),
        t.at(7),
    ])
}

// The first eight bytes of a text, or all of them where it has no more.
pub fn short_of<T: Bytes>(t: &T) -> Short
    ensures short { result ≡ short_of (T.Bytes.bytes t.now) }
    ensures bytes { bytes_of result.len result.word ≡ take LONGEST (T.Bytes.bytes t.now) }
{
    Short {
        word: first_word(t),
        len: t.len().min(LONGEST),
    }
}
