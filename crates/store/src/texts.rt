// Texts in a region of lent memory, by handles, with counts of their holders. Blocks are taken from the top, and given back when no one holds them;
// where the top has no room, the blocks are first moved together. Memory is lent and fixed, without a heap, so a text is a block and no String.
ghost use Rattle.std.specs.Prelude.{◌≡◌, ℕ, ◌+◌, ◌-◌, ◌*◌, ◌<◌, ◌≤◌, min, length, drop, nat_le, slice_index};
ghost use Rattle.std.proofs.Math.Seq.{paste};
ghost use Rattle.store.specs.Words.{window};
ghost use Rattle.store.specs.Space.{Given, region, place as «place_in», span, bytes_at, with_top, with_free, with_heap, put_word, put_entry, slid, compacted, taken, tried, allocated, raised, lowered, length_of, text_of, written, copied, emptied};
ghost use Rattle.store.specs.Laws.{Laws, Interface, Filled, NewByWords};

use crate::bytes::Bytes;
use crate::packed::{Packed, window_of};
use crate::writing::{copy_in, move_bytes};

// How many words the region has. It is lent as a slice, with its length required. To lend the part of the memory as an array was tried, by
// `first_chunk_mut::<TEXTS>().unwrap()`: the lender's goal, that the memory with the words that come back put in has the changed texts, stayed open, as nothing
// names those words. A struct that holds the loan would need a second one for what is only read.
pub const TEXTS: usize = 98_304;
// How many handles there are.
const HANDLES: usize = 20_480;
// How many words and bytes the blocks have.
const WORDS: usize = 77_822;

const BYTES: usize = 8 * WORDS;
// Where the table begins, and where the blocks do; before them stand the top and the first free handle.
const TABLE: usize = 2;

const HEAP: usize = 20_482;
// How many words of a block stand before its bytes: the count of its holders, its length in bytes, its handle.
const FRONT: usize = 3;

// A text's number in the table.
#[derive(Clone, Copy)]
pub struct Handle {
    pub index: usize,
}

fn word(texts: &[u64], a: usize) -> usize
    requires { length texts.now ≡ 98304 }
    ensures { result ≡ slice_index (region texts.now).heap a }
{
    if a < WORDS {
        texts[HEAP + a] as usize
    } else {
        0
    }
}

#[tactic(auto, using(crate::proofs::Parts::heap_write, crate::proofs::Parts::heap_unwritten))]
fn set_word(texts: &mut [u64], a: usize, v: usize)
    requires { length texts.old ≡ 98304 }
    ensures { region texts.new ≡ put_word (region texts.old) a v }
{
    if a < WORDS {
        texts[HEAP + a] = v as u64;
    }
}

#[tactic(auto, using(crate::proofs::Parts::table_read, crate::proofs::Parts::table_past))]
fn entry(texts: &[u64], h: usize) -> usize
    requires { length texts.now ≡ 98304 }
    ensures { result ≡ slice_index (region texts.now).table h }
{
    if h < HANDLES {
        texts[TABLE + h] as usize
    } else {
        0
    }
}

#[tactic(auto, using(crate::proofs::Parts::table_write, crate::proofs::Parts::table_unwritten))]
fn set_entry(texts: &mut [u64], h: usize, v: usize)
    requires { length texts.old ≡ 98304 }
    ensures { region texts.new ≡ put_entry (region texts.old) h v }
{
    if h < HANDLES {
        texts[TABLE + h] = v as u64;
    }
}

#[tactic(auto, unfolding(crate::specs::Space::space))]
fn top(texts: &[u64]) -> usize
    requires { length texts.now ≡ 98304 }
    ensures { result ≡ (region texts.now).top }
{
    texts[0] as usize
}

#[tactic(auto, using(crate::proofs::Parts::top_write))]
fn set_top(texts: &mut [u64], v: usize)
    requires { length texts.old ≡ 98304 }
    ensures { region texts.new ≡ with_top (region texts.old) v }
{
    texts[0] = v as u64;
}

#[tactic(auto, unfolding(crate::specs::Space::space))]
fn free(texts: &[u64]) -> usize
    requires { length texts.now ≡ 98304 }
    ensures { result ≡ (region texts.now).free }
{
    texts[1] as usize
}

#[tactic(auto, using(crate::proofs::Parts::free_write))]
fn set_free(texts: &mut [u64], v: usize)
    requires { length texts.old ≡ 98304 }
    ensures { region texts.new ≡ with_free (region texts.old) v }
{
    texts[1] = v as u64;
}

// Where the block of a handle begins.
fn place(texts: &[u64], h: usize) -> usize
    requires { length texts.now ≡ 98304 }
    ensures { result ≡ «place_in» 77822 (region texts.now) h }
{
    entry(texts, h).min(WORDS)
}

// Moves n words of the blocks down.
fn shift(texts: &mut [u64], from: usize, to: usize, n: usize)
    requires { (length texts.old ≡ 98304) × ((to ≤ from) × (from + n ≤ 77822)) }
    ensures { region texts.new ≡ with_heap (region texts.old) (paste (region texts.old).heap to (drop from (region texts.old).heap) n) }
{
    if to < from {
        texts.copy_within(HEAP + from..HEAP + from + n, HEAP + to);
    }
}

// Slides the blocks below `end` together, and says where they end then.
fn slide(texts: &mut [u64], end: usize) -> usize
    requires { (length texts.old ≡ 98304) × (end ≤ 77822) }
    ensures { with_top (region texts.new) result ≡ slid 20480 77822 end (region texts.old) 0 0 }
{
    let mut from = 0;
    let mut to = 0;
    while from < end {
        let needed = word(texts, from + 1) / 8 + 4;
        let n = needed.min(end - from);
        let h = word(texts, from + 2);
        if h < HANDLES {
            shift(texts, from, to, n);
            set_entry(texts, h, to);
            to += n;
        }
        from += n;
    }
    to
}

// Where the blocks end.
fn used(texts: &[u64]) -> usize
    requires { length texts.now ≡ 98304 }
    ensures { result ≡ min (region texts.now).top 77822 }
{
    top(texts).min(WORDS)
}

// Moves all blocks together.
#[tactic(auto, unfolding(crate::specs::Space::compacted))]
pub fn compact(texts: &mut [u64])
    requires { length texts.old ≡ 98304 }
    ensures { region texts.new ≡ compacted 20480 77822 (region texts.old) }
{
    let end = used(texts);
    let to = slide(texts, end);
    set_top(texts, to);
}

// Whether a block of n bytes has room at the top.
fn fits(texts: &[u64], n: usize) -> bool
    requires { length texts.now ≡ 98304 }
    ensures { result ≡ nat_le (span n) (77822 - (region texts.now).top) }
{
    n / 8 + 4 <= WORDS - used(texts)
}

// Lays a block of n bytes, with one holder, at the top, where it has room.
#[tactic(auto, unfolding(crate::specs::Space::taken))]
fn lay(texts: &mut [u64], h: usize, n: usize)
    requires { (length texts.old ≡ 98304) × ((h ≡ (region texts.old).free) × (span n ≤ 77822 - (region texts.old).top)) }
    ensures { region texts.new ≡ taken (region texts.old) n }
{
    let at = top(texts);
    let next = entry(texts, h);
    set_word(texts, at, 1);
    set_word(texts, at + 1, n);
    set_word(texts, at + 2, h);
    set_entry(texts, h, at);
    set_free(texts, next);
    set_top(texts, at + (n / 8 + 4));
}

// A text of n bytes at the top, if there is a handle and room.
#[tactic(auto, unfolding(crate::specs::Space::tried))]
fn take_top(texts: &mut [u64], n: usize) -> Option<Handle>
    requires { length texts.old ≡ 98304 }
    ensures { ◌≡◌ {A = Given} (record { space = region texts.new; handle = result }) (tried 20480 77822 (region texts.old) n) }
{
    let h = free(texts);
    if h < HANDLES && fits(texts, n) {
        lay(texts, h, n);
        Some(Handle { index: h })
    } else {
        None
    }
}

// A text of n bytes, with one holder; or none, if there is no room.
#[tactic(auto, unfolding(crate::specs::Space::allocated))]
pub fn allocate(texts: &mut [u64], n: usize) -> Option<Handle>
    requires { length texts.old ≡ 98304 }
    ensures { ◌≡◌ {A = Given} (record { space = region texts.new; handle = result }) (allocated 20480 77822 (region texts.old) n) }
{
    if !fits(texts, n) {
        compact(texts);
    }
    take_top(texts, n)
}

// One holder more.
#[tactic(auto, unfolding(crate::specs::Space::raised))]
pub fn hold(texts: &mut [u64], h: Handle)
    requires { length texts.old ≡ 98304 }
    ensures { region texts.new ≡ raised 77822 (region texts.old) h.index }
{
    let at = place(texts, h.index);
    let count = word(texts, at);
    set_word(texts, at, count.wrapping_add(1));
}

// One holder less; a text without holders is given back.
#[tactic(auto, unfolding(crate::specs::Space::lowered, crate::specs::Space::freed))]
pub fn release(texts: &mut [u64], h: Handle)
    requires { length texts.old ≡ 98304 }
    ensures { region texts.new ≡ lowered 20480 77822 (region texts.old) h.index }
{
    let at = place(texts, h.index);
    let count = word(texts, at);
    if count > 1 {
        set_word(texts, at, count - 1);
    } else {
        let next = free(texts);
        set_word(texts, at + 2, HANDLES);
        set_entry(texts, h.index, next);
        set_free(texts, h.index);
    }
}

// A region without texts.
pub fn clear(texts: &mut [u64])
    requires { length texts.old ≡ 98304 }
    ensures { region texts.new ≡ emptied 20480 (region texts.old) }
{
    for h in 0..HANDLES {
        set_entry(texts, h, h + 1);
    }
    set_free(texts, 0);
    set_top(texts, 0);
}

// How many bytes a text has.
pub fn len(texts: &[u64], h: Handle) -> usize
    requires { length texts.now ≡ 98304 }
    ensures { result ≡ length_of 77822 (region texts.now) h.index }
{
    word(texts, place(texts, h.index) + 1)
}

// Where the bytes of a text begin, counted in bytes of the blocks.
fn start(texts: &[u64], h: Handle) -> usize
    requires { length texts.now ≡ 98304 }
    ensures { result ≡ bytes_at 77822 (region texts.now) h.index }
{
    8 * (place(texts, h.index) + FRONT)
}

// The bytes of a text.
pub fn view(texts: &[u64], h: Handle) -> Packed<'_>
    requires { length texts.now ≡ 98304 }
    ensures { window result.from result.len result.words.now ≡ text_of 77822 (region texts.now) h.index }
{
    window_of(&texts[HEAP..TEXTS], start(texts, h), len(texts, h))
}

// Writes the bytes of t into a text, from its byte `at` on.
pub fn fill<T: Bytes>(texts: &mut [u64], h: Handle, at: usize, t: &T)
    requires { length texts.old ≡ 98304 }
    ensures { region texts.new ≡ written 77822 (region texts.old) h.index at (T.Bytes.bytes t.now) }
{
    let to = start(texts, h).saturating_add(at);
    if to < BYTES {
        copy_in(t, &mut texts[HEAP..TEXTS], to);
    }
}

// Writes the bytes of one text into another, from byte `at` of that on.
pub fn copy_text(texts: &mut [u64], h: Handle, at: usize, from: Handle)
    requires { length texts.old ≡ 98304 }
    ensures { region texts.new ≡ copied 77822 (region texts.old) h.index at from.index }
{
    let begin = start(texts, from).min(BYTES);
    let size = len(texts, from).min(BYTES - begin);
    let to = start(texts, h).saturating_add(at);
    if to < BYTES {
        let n = size.min(BYTES - to);
        move_bytes(&mut texts[HEAP..TEXTS], begin, to, n);
    }
}

// Room for a new text, in words of the texts that are held.
#[tactic(auto, using(crate::proofs::Faces::new_by_words))]
pub fn word_laws_stand()
    ensures { (T W : ℕ) → NewByWords T W }
{}

// The laws of such regions, whatever their size.
pub fn laws_stand()
    ensures cells { (T W : ℕ) → Laws T W }
    ensures texts { (T W : ℕ) → Interface T W }
    ensures filled { Filled }
{}
