// The region that has the bytes of lines, packed: first those that came and are in no line yet, with the line that is being worked on, then two
// buffers for lines that the program puts together.
ghost use Rattle.std.specs.Prelude.{◌≡◌, ℕ, ◌+◌, ◌-◌, ◌*◌, ◌^◌, ◌<◌, ◌≤◌, length, slice_index};
ghost use Rattle.store.specs.Words.{unpacked, window, put_byte, put_bytes};
ghost use Rattle.regions.specs.Parts.{parts, with_lines};

use crate::Memory;
use store::bytes::Bytes;
use store::packed::{Packed, byte, window_of};
use store::place::Place;
use store::writing::{copy_in, move_within, set_byte};

const FROM: usize = 69_888;

const TO: usize = 94_976;

// How many bytes there are in all.
pub const BYTES: usize = 200_704;

// Byte i of the region, which has so many.
pub fn byte_within(mem: &Memory, i: usize) -> u8
    requires { i < 200704 }
    ensures { result ≡ slice_index (unpacked (parts mem.now).lines) i }
{
    byte(&mem[FROM..TO], i)
}

// Byte i of the region; 0 behind the end.
pub fn line_byte(mem: &Memory, i: usize) -> u8
    ensures { result ≡ slice_index (unpacked (parts mem.now).lines) i }
{
    if i < BYTES { byte_within(mem, i) } else { 0 }
}

// The bytes at a place; fewer where the region ends.
pub fn line_window(mem: &Memory, place: Place) -> Packed<'_>
    ensures { window result.from result.len result.words.now ≡ window place.start place.len (parts mem.now).lines }
{
    window_of(&mem[FROM..TO], place.start, place.len)
}

// Byte i becomes b; behind the end nothing is changed.
pub fn put_line_byte(mem: &mut Memory, i: usize, b: u8)
    ensures { parts mem.new ≡ with_lines (parts mem.old) (put_byte (parts mem.old).lines i b) }
{
    set_byte(&mut mem[FROM..TO], i, b);
}

// Puts the bytes of a text from byte `to` on, as many as there is room for.
pub fn put_text<T: Bytes>(mem: &mut Memory, to: usize, t: &T)
    ensures { parts mem.new ≡ with_lines (parts mem.old) (put_bytes (parts mem.old).lines to (T.Bytes.bytes t.now)) }
{
    copy_in(t, &mut mem[FROM..TO], to);
}

// Moves n bytes from byte `from` on to where byte `to` is; fewer where the region ends.
pub fn move_lines(mem: &mut Memory, from: usize, to: usize, n: usize)
    ensures { parts mem.new ≡ with_lines (parts mem.old) (put_bytes (parts mem.old).lines to (window from n (parts mem.old).lines)) }
{
    move_within(&mut mem[FROM..TO], from, to, n);
}
