// Writing texts and bytes into a row, behind one another.
ghost use Rattle.std.specs.Prelude.{◌≡◌, [], ◌∷◌};
ghost use Rattle.store.specs.Words.{window};
ghost use Rattle.rows.specs.Pens.{writing, put};

use crate::copying::packed_out;
use store::bytes::Bytes;
use store::copying::copy_out;
use store::packed::Packed;

// From how many bytes on a packed text is written in blocks. In a shorter one the bytes before the first whole word can cost more than the blocks save.
const LONG: usize = 256;

// A row, where its next byte goes, and how many bytes are passed over before one is written, since an earlier row has them.
#[derive(Drop)]
pub struct Pen<'a> {
    pub row: &'a mut [u8],
    pub at: usize,
    pub skip: usize,
}

impl Pen<'_> {
    // Writes a text, as much of it as there is room for.
    pub fn text<T: Bytes>(&mut self, t: &T)
        ensures same_row { self.new.row.ghost_name ≡ self.old.row.ghost_name }
        ensures written { writing self.new ≡ put (writing self.old) (T.Bytes.bytes t.now) }
    {
        self.at += copy_out(t, self.skip, self.row, self.at);
        self.skip = self.skip.saturating_sub(t.len());
    }

    // Writes a packed text in the same way: a long one in blocks, its whole words as they lie. Inline, as `text` is where it is called: short texts are many.
    #[inline]
    pub fn packed(&mut self, t: &Packed)
        ensures same_row { self.new.row.ghost_name ≡ self.old.row.ghost_name }
        ensures written { writing self.new ≡ put (writing self.old) (window t.now.from t.now.len t.now.words.now) }
    {
        if t.len < LONG {
            self.text(t);
        } else {
            self.at += packed_out(t, self.skip, self.row, self.at);
            self.skip = self.skip.saturating_sub(t.len);
        }
    }

    // Writes a byte, if there is room for it.
    pub fn byte(&mut self, b: u8)
        ensures same_row { self.new.row.ghost_name ≡ self.old.row.ghost_name }
        ensures written { writing self.new ≡ put (writing self.old) (b ∷ []) }
    {
        if self.skip > 0 {
            self.skip -= 1;
        } else if self.at < self.row.len() {
            self.row[self.at] = b;
            self.at += 1;
        }
    }
}
