// A text is cut into fields in one pass over its bytes.
ghost use Rattle.std.specs.Prelude.{◌≡◌, ℕ, ◌+◌, ◌-◌, ◌*◌, ◌<◌, ◌≤◌, min, length};
ghost use Rattle.store.specs.Words.{window};
ghost use Rattle.regions.specs.Parts.{parts, with_fields};
ghost use Rattle.lines.specs.Cutting.{cuts_of, fresh_cut, closed_words, closed_count, pass_byte, recut_of};

use regions::Memory;
use regions::fields::{Place, set_field};
use regions::lines::{BYTES, byte_within};
use store::bytes::is_blank;

// How far a text is cut. Places count from where the text begins, so they stay as they are when it is moved.
#[derive(Clone, Copy, Default)]
pub struct Cut {
    // how many bytes were passed
    pub at: usize,
    // where the bytes begin that follow the last blank: if there are any, they are a field that has not ended
    pub since: usize,
    // how many fields have ended; the places of those that have room are noted
    pub fields: usize,
}

// Nothing of a text is passed.
pub fn fresh() -> Cut
    ensures { result ≡ fresh_cut }
{
    Cut::default()
}

// How many bytes are at a place.
pub fn len_at(place: Place) -> usize
    ensures { result ≡ min place.len (200704 - place.start) }
{
    place.len.min(BYTES.saturating_sub(place.start))
}

// The field that has not ended ends here, if there is one; says how many there are then.
pub fn close(mem: &mut Memory, cut: Cut) -> usize
    ensures noted { parts mem.new ≡ with_fields (parts mem.old) (closed_words (parts mem.old).fields cut) }
    ensures count { result ≡ closed_count cut }
{
    if cut.since < cut.at {
        let place = Place {
            start: cut.since,
            len: cut.at - cut.since,
        };
        set_field(mem, cut.fields, place);
        cut.fields.saturating_add(1)
    } else {
        cut.fields
    }
}

// Passes byte b of the text.
pub fn pass(mem: &mut Memory, cut: Cut, b: u8) -> Cut
    requires { cut.at < 200704 }
    ensures noted { parts mem.new ≡ with_fields (parts mem.old) (pass_byte b (cuts_of (parts mem.old).fields cut)).words }
    ensures cut { result ≡ (pass_byte b (cuts_of (parts mem.old).fields cut)).cut }
{
    let at = cut.at + 1;
    if is_blank(b) {
        let fields = close(mem, cut);
        Cut {
            at,
            since: at,
            fields,
        }
    } else {
        Cut { at, ..cut }
    }
}

// Cuts the text at a place into fields, and says how many there are.
pub fn recut(mem: &mut Memory, place: Place) -> usize
    ensures noted { parts mem.new ≡ with_fields (parts mem.old) (recut_of (parts mem.old).fields (window place.start place.len (parts mem.old).lines)).words }
    ensures count { result ≡ (recut_of (parts mem.old).fields (window place.start place.len (parts mem.old).lines)).cut.fields }
{
    let n = len_at(place);
    let mut cut = fresh();
    for i in 0..n {
        let b = byte_within(mem, place.start + i);
        cut = pass(mem, cut, b);
    }
    close(mem, cut)
}
