// Bytes put into packed words.
ghost use Rattle.std.specs.Prelude.{◌≡◌, ℕ, ◌+◌, ◌-◌, ◌*◌, ◌/◌, ◌%◌, ◌^◌, ◌<◌, ◌≤◌, min, ◌⊎◌, length, take, drop};
ghost use Rattle.store.specs.Words.{put_byte, put_bytes, window};
ghost use Rattle.store.specs.Bytewise.{ByteLaws};

use crate::bytes::Bytes;
use crate::packed::{byte, word_at};

// Byte i becomes b; behind the last word nothing is changed.
pub fn set_byte(words: &mut [u64], i: usize, b: u8)
    ensures { words.new ≡ put_byte words.old i b }
{
    if i / 8 < words.len() {
        let by = 8 * (i % 8);
        let w = words[i / 8];
        let old = (w >> by) & 0xff;
        words[i / 8] = w - (old << by) + (u64::from(b) << by);
    }
}

// Puts n bytes of t, from byte `from` of it on, one by one. Where it begins and how many stay numbers beside t, here and in `put_words`: a struct for them
// would live for one call, and its limits would be those of the two texts, so it would carry no fact.
fn put_bytes<T: Bytes>(t: &T, from: usize, n: usize, words: &mut [u64], to: usize)
    requires { (from + n ≤ length (T.Bytes.bytes t.now)) × ((from + n < 2 ^ 64) × (to + n ≤ 8 * length words.old)) }
    ensures { words.new ≡ put_bytes words.old to (take n (drop from (T.Bytes.bytes t.now))) }
{
    for i in 0..n {
        set_byte(words, to + i, t.at(from + i));
    }
}

// Puts n words of bytes of t, from byte `from` of it on, into the words from q on.
fn put_words<T: Bytes>(t: &T, from: usize, n: usize, words: &mut [u64], q: usize)
    requires { (from + 8 * n ≤ length (T.Bytes.bytes t.now)) × ((from + 8 * n < 2 ^ 64) × (q + n ≤ length words.old)) }
    ensures { words.new ≡ put_bytes words.old (8 * q) (take (8 * n) (drop from (T.Bytes.bytes t.now))) }
{
    for i in 0..n {
        words[q + i] = t.word(from + 8 * i);
    }
}

// Puts the bytes of t from byte `to` on, as many as there is room for: whole words at once, and what is before and behind them one by one.
pub fn copy_in<T: Bytes>(t: &T, words: &mut [u64], to: usize)
    ensures { words.new ≡ put_bytes words.old to (T.Bytes.bytes t.now) }
{
    let room = (8 * words.len()).saturating_sub(to);
    let n = t.len().min(room);
    let head = ((8 - to % 8) % 8).min(n);
    let whole = (n - head) / 8;
    let done = head + 8 * whole;
    if n > 0 {
        put_bytes(t, 0, head, words, to);
        put_words(t, head, whole, words, (to + head) / 8);
        put_bytes(t, done, n - done, words, to + done);
    }
}

// Moves n bytes one by one, the first first. In the moves `from`, `to` and `n` stay numbers: what is required of them is about these words, so a struct of
// the three could not carry it, and it would live for one call.
fn move_some(words: &mut [u64], from: usize, to: usize, n: usize)
    requires inside { (from + n ≤ 8 * length words.old) × (to + n ≤ 8 * length words.old) }
    requires apart { (to ≤ from) ⊎ (from + n ≤ to) }
    ensures { words.new ≡ put_bytes words.old to (window from n words.old) }
{
    for i in 0..n {
        let b = byte(words, from + i);
        set_byte(words, to + i, b);
    }
}

// Moves the bytes of n words, to the words from q on, the first first.
fn move_words(words: &mut [u64], from: usize, q: usize, n: usize)
    requires inside { (from + 8 * n ≤ 8 * length words.old) × (q + n ≤ length words.old) }
    requires apart { (8 * q ≤ from) ⊎ (from + 8 * n ≤ 8 * q) }
    ensures { words.new ≡ put_bytes words.old (8 * q) (window from (8 * n) words.old) }
{
    for i in 0..n {
        words[q + i] = word_at(words, from + 8 * i);
    }
}

// Moves n bytes one by one, the last first. Beside `move_some`, since the two directions are right for different overlaps, and each has an invariant of its
// own: with the order of the indices as a parameter both would be to be proved of one loop.
fn move_up(words: &mut [u64], from: usize, to: usize, n: usize)
    requires { (from ≤ to) × (to + n ≤ 8 * length words.old) }
    ensures { words.new ≡ put_bytes words.old to (window from n words.old) }
{
    for i in (0..n).rev() {
        let b = byte(words, from + i);
        set_byte(words, to + i, b);
    }
}

// Moves n bytes, whole words at once, the first first.
fn move_down(words: &mut [u64], from: usize, to: usize, n: usize)
    requires inside { (from + n ≤ 8 * length words.old) × (to + n ≤ 8 * length words.old) }
    requires apart { (to ≤ from) ⊎ (from + n ≤ to) }
    ensures { words.new ≡ put_bytes words.old to (window from n words.old) }
{
    let head = ((8 - to % 8) % 8).min(n);
    let whole = (n - head) / 8;
    let done = head + 8 * whole;
    move_some(words, from, to, head);
    move_words(words, from + head, (to + head) / 8, whole);
    move_some(words, from + done, to + done, n - done);
}

// Moves n bytes from byte `from` on to where byte `to` is; the two places may overlap.
pub fn move_bytes(words: &mut [u64], from: usize, to: usize, n: usize)
    requires { (from + n ≤ 8 * length words.old) × (to + n ≤ 8 * length words.old) }
    ensures { words.new ≡ put_bytes words.old to (window from n words.old) }
{
    if to <= from || from + n <= to {
        move_down(words, from, to, n);
    } else {
        move_up(words, from, to, n);
    }
}

// Moves n bytes from byte `from` on to where byte `to` is; fewer where the words end.
pub fn move_within(words: &mut [u64], from: usize, to: usize, n: usize)
    ensures { words.new ≡ put_bytes words.old to (window from n words.old) }
{
    let end = 8 * words.len();
    let from = from.min(end);
    let n = n.min(end - from);
    let to = to.min(end);
    move_bytes(words, from, to, n.min(end - to));
}

// What this does to the bytes.
pub fn byte_laws_stand()
    ensures { ByteLaws }
{}
