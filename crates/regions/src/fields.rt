// The region that has the places of the current line's fields, a word each.
ghost use Rattle.std.specs.Prelude.{◌≡◌, ℕ, ◌+◌, ◌*◌, ◌<◌, ◌≤◌, length, slice_index, slice_set};
ghost use Rattle.regions.specs.Parts.{parts, with_fields};
ghost use Rattle.regions.specs.Places.{place_word, place_of, PlacesComeBack};

use crate::{Memory, put, word};
pub use store::place::Place;

// How many places there is room for.
pub const FIELDS: usize = 16_448;

const FROM: usize = 53_440;

const HALF: u64 = 1 << 32;

// A place as a word, by name and not by `From`: it loses what is beyond 32 bits, and is the format of this region alone.
fn word_of(place: Place) -> u64
    ensures { result ≡ place_word place }
{
    place.start as u64 % HALF + HALF * (place.len as u64 % HALF)
}

// The place at an index; an empty one behind the end.
pub fn field_at(mem: &Memory, i: usize) -> Place
    ensures { result ≡ place_of (slice_index (parts mem.now).fields i) }
{
    let w = word(&mem[FROM..FROM + FIELDS], i);
    Place {
        start: (w % HALF) as usize,
        len: (w / HALF) as usize,
    }
}

// Notes a place at an index; behind the end nothing is changed.
pub fn set_field(mem: &mut Memory, i: usize, place: Place)
    ensures { parts mem.new ≡ with_fields (parts mem.old) (slice_set (parts mem.old).fields i (place_word place)) }
{
    put(&mut mem[FROM..FROM + FIELDS], i, word_of(place));
}

// A place of a text of less than 4 GiB is read as it was noted.
pub fn places_come_back()
    ensures { PlacesComeBack }
{}
