// Bytes that lie packed in words: eight to a word, the lowest first.
ghost use Rattle.std.specs.Prelude.{◌≡◌, ℕ, ◌+◌, ◌*◌, ◌^◌, ◌<◌, ◌≤◌, length, slice_index};
ghost use Rattle.store.specs.Words.{bytes_of, unpacked, window};

use crate::bytes::Bytes;

// Part of what lies in some words.
#[derive(Clone, Copy)]
pub struct Packed<'a> {
    pub words: &'a [u64],
    pub from: usize,
    pub len: usize,
    ghost inside: { from + len ≤ 8 * length words.now },
}

// The len bytes from byte `from` on; fewer where the words end.
#[tactic(auto, using(crate::proofs::Packing::window_cut))]
pub fn window_of(words: &[u64], from: usize, len: usize) -> Packed<'_>
    ensures { window result.from result.len result.words.now ≡ window from len words.now }
{
    let end = 8 * words.len();
    let from = from.min(end);
    let len = len.min(end - from);
    Packed { words, from, len }
}

// Byte i of some words.
pub fn byte(words: &[u64], i: usize) -> u8
    requires { i < 8 * length words.now }
    ensures { result ≡ slice_index (unpacked words.now) i }
{
    ((words[i / 8] >> (8 * (i % 8))) & 0xff) as u8
}

// The eight bytes from byte `from` on, as a word.
pub fn word_at(words: &[u64], from: usize) -> u64
    requires { from + 8 ≤ 8 * length words.now }
    ensures { bytes_of 8 result ≡ window from 8 words.now }
{
    let q = from / 8;
    let r = from % 8;
    if r == 0 {
        words[q]
    } else {
        (words[q] >> (8 * r)) | (words[q + 1] << (64 - 8 * r))
    }
}

impl Bytes for Packed<'_> {
    ghost bytes = { λ p. window p.from p.len p.words.now };

    fn len(&self) -> usize {
        self.len
    }

    fn at(&self, i: usize) -> u8 {
        if i < self.len {
            byte(self.words, self.from + i)
        } else {
            0
        }
    }

    fn word(&self, i: usize) -> u64 {
        word_at(self.words, self.from + i)
    }
}
