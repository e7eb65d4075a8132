// A text of up to eight bytes inside one word, the first byte lowest.
ghost use Rattle.std.specs.Prelude.{◌≡◌, ℕ, ◌+◌, ◌*◌, ◌%◌, ◌^◌, ◌<◌, ◌≤◌, length};
ghost use Rattle.store.specs.Words.{bytes_of};

use crate::bytes::Bytes;

// How many bytes a short text has at most.
pub const LONGEST: usize = 8;

// The bytes behind the last are 0, so that equal texts are equal words.
#[derive(Clone, Copy)]
pub struct Short {
    pub word: u64,
    pub len: usize,
    ghost few: { len ≤ 8 },
    ghost clean: { word < 256 ^ len },
}

// The n lowest bytes of a word.
pub fn low_bytes(word: u64, n: usize) -> u64
    requires { n ≤ 8 }
    ensures { result ≡ word % 256 ^ n }
{
    if n < 8 {
        word & ((1 << (8 * n)) - 1)
    } else {
        word
    }
}

impl Bytes for Short {
    ghost bytes = { λ s. bytes_of s.len s.word };

    fn len(&self) -> usize {
        self.len
    }

    fn at(&self, i: usize) -> u8 {
        if i < 8 {
            ((self.word >> (8 * i)) & 0xff) as u8
        } else {
            0
        }
    }
}
