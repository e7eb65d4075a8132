// Bytes that someone lends as they are.
ghost use Rattle.std.specs.Prelude.{◌≡◌, ◌+◌, ◌≤◌, length, take, drop};
ghost use Rattle.store.specs.Words.{bytes_of};

use crate::bytes::Bytes;

#[derive(Clone, Copy)]
pub struct Lent<'a> {
    pub piece: &'a [u8],
}

// The eight bytes from byte i on, as a word.
fn eight(piece: &[u8], i: usize) -> u64
    requires { i + 8 ≤ length piece.now }
    ensures { bytes_of 8 result ≡ take 8 (drop i piece.now) }
{
    u64::from_le_bytes(*piece[i..].first_chunk().unwrap())
}

impl Bytes for Lent<'_> {
    ghost bytes = { λ l. l.piece.now };

    fn len(&self) -> usize {
        self.piece.len()
    }

    fn at(&self, i: usize) -> u8 {
        self.piece.get(i).copied().unwrap_or(0)
    }

    fn word(&self, i: usize) -> u64 {
        eight(self.piece, i)
    }
}
