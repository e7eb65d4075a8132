// Bytes of packed words that go into a row, eight at a time.
ghost use Rattle.std.specs.Prelude.{◌≡◌, ◌+◌, ◌-◌, ◌*◌, ◌≤◌, min, length, drop};
ghost use Rattle.store.specs.Words.{window, over};

use store::bytes::Bytes;
use store::packed::Packed;

// Copies n words from word q on. They are a slice of their own: with words[q + i] in the loop LLVM moves no blocks.
fn copy_words(words: &[u64], q: usize, n: usize, row: &mut [u8], at: usize)
    requires { (q + n ≤ length words.now) × (at + 8 * n ≤ length row.old) }
    ensures { row.new ≡ over row.old at (window (8 * q) (8 * n) words.now) }
{
    let part = &words[q..q + n];
    for i in 0..n {
        let place = at + 8 * i;
        row[place..place + 8].copy_from_slice(&part[i].to_le_bytes());
    }
}

// Copies a text that has room, byte by byte.
fn copy_bytes(t: &Packed, row: &mut [u8], at: usize)
    requires { at + t.now.len ≤ length row.old }
    ensures { row.new ≡ over row.old at (window t.now.from t.now.len t.now.words.now) }
{
    for i in 0..t.len {
        row[at + i] = t.at(i);
    }
}

// Copies a text that has room: whole words at once, and what is before and behind them one by one.
fn copy_packed(t: &Packed, row: &mut [u8], at: usize)
    requires { at + t.now.len ≤ length row.old }
    ensures { row.new ≡ over row.old at (window t.now.from t.now.len t.now.words.now) }
{
    let head = ((8 - t.from % 8) % 8).min(t.len);
    let whole = (t.len - head) / 8;
    let done = head + 8 * whole;
    let first = Packed {
        words: t.words,
        from: t.from,
        len: head,
    };
    let last = Packed {
        words: t.words,
        from: t.from + done,
        len: t.len - done,
    };
    copy_bytes(&first, row, at);
    copy_words(t.words, (t.from + head) / 8, whole, row, at + head);
    copy_bytes(&last, row, at + done);
}

// Copies the bytes of t from `from` on to `row`, from `at` on, as many as there are and have room, and says how many: as store's `copy_out`, but whole words as
// they lie, not shifted. Not inline, so that the callers' code for short texts stays small.
#[inline(never)]
pub fn packed_out(t: &Packed, from: usize, row: &mut [u8], at: usize) -> usize
    ensures count { result ≡ min (length (window t.now.from t.now.len t.now.words.now) - from) (length row.old - at) }
    ensures copied { row.new ≡ over row.old at (drop from (window t.now.from t.now.len t.now.words.now)) }
{
    let left = t.len.saturating_sub(from);
    let room = row.len().saturating_sub(at);
    let len = left.min(room);
    if len > 0 {
        let part = Packed {
            words: t.words,
            from: t.from + from,
            len,
        };
        copy_packed(&part, row, at);
    }
    len
}
