// A text as a list of bytes, whatever holds it.
ghost use Rattle.std.specs.Prelude.{◌≡◌, ℕ, ◌+◌, ◌^◌, ◌<◌, ◌≤◌, List, length, take, drop, slice_index};
ghost use Rattle.language.specs.Text.{blank};
ghost use Rattle.store.specs.Words.{bytes_of};

pub trait Bytes {
    ghost bytes: { Self → List ℕ };

    // How many bytes there are.
    fn len(&self) -> usize
        ensures { result ≡ length (bytes self.now) };

    // Byte i, or 0 behind the last.
    fn at(&self, i: usize) -> u8
        ensures { result ≡ slice_index (bytes self.now) i };

    // The eight bytes from byte i on, as a word, the first lowest. `array::from_fn` was tried: what its closure read from the text isn't known to the proof.
    fn word(&self, i: usize) -> u64
        requires { (i + 8 ≤ length (bytes self.now)) × (i + 8 < 2 ^ 64) }
        ensures { bytes_of 8 result ≡ take 8 (drop i (bytes self.now)) }
    {
        u64::from_le_bytes([
            self.at(i),
            self.at(i + 1),
            self.at(i + 2),
            self.at(i + 3),
            self.at(i + 4),
            self.at(i + 5),
            self.at(i + 6),
            self.at(i + 7),
        ])
    }
}

// Whether a byte is a blank or a tab.
pub fn is_blank(b: u8) -> bool
    ensures { result ≡ blank b }
{
    matches!(b, b' ' | b'\t')
}
