// Values in cells of two words: which kind, and what of it.
ghost use Rattle.std.specs.Prelude.{◌≡◌, ℕ, ◌+◌, ◌*◌, ◌<◌, ◌≤◌, length, slice_index_or, slice_set};
ghost use Rattle.store.specs.declared.cells.Value.TheVariants.{Unset};
ghost use Rattle.store.specs.Space.{region};
ghost use Rattle.store.specs.Values.{decode, decoded, saved, kind_of, payload_of, kept, let_go, Made, made};
ghost use Rattle.store.specs.Worth.{ValueLaws, MakesByWords};

use crate::bytes::Bytes;
use crate::copying::short_of;
use crate::short::{LONGEST, Short, low_bytes};
use crate::texts::{Handle, allocate, fill, hold, release};

// A value: nothing was set; a number; a text of up to eight bytes; a longer text.
#[derive(Clone, Copy)]
pub enum Value {
    Unset,
    Number(i64),
    Short(Short),
    Text(Handle),
}

// The kinds, as numbers, since a cell of memory is two words; a short text's is that of the empty one and its length.
const UNSET: u64 = 0;

const NUMBER: u64 = 1;

const TEXT: u64 = 2;

const SHORT: u64 = 3;

const LONGEST_SHORT: u64 = 11;

// What a kind and what stands with it say; Unset where there is no such kind. By name: two words are no type that `From` could take.
fn value_of(kind: u64, payload: u64) -> Value
    ensures { result ≡ decode kind payload }
{
    match kind {
        NUMBER => Value::Number(payload.cast_signed()),
        TEXT => Value::Text(Handle {
            index: payload as usize,
        }),
        SHORT..=LONGEST_SHORT => {
            let len = (kind - SHORT) as usize;
            Value::Short(Short {
                word: low_bytes(payload, len),
                len,
            })
        }
        _ => Value::Unset,
    }
}

// The value of cell i; Unset where there is no such cell.
pub fn load(cells: &[u64], i: usize) -> Value
    ensures { result ≡ slice_index_or (decoded cells.now) i Unset }
{
    if i < cells.len() / 2 {
        value_of(cells[2 * i], cells[2 * i + 1])
    } else {
        Value::Unset
    }
}

// The kind of a value.
fn kind_of(v: Value) -> u64
    ensures { result ≡ kind_of v }
{
    match v {
        Value::Unset => UNSET,
        Value::Number(_) => NUMBER,
        Value::Text(_) => TEXT,
        Value::Short(short) => SHORT + short.len as u64,
    }
}

// What stands with the kind.
fn payload_of(v: Value) -> u64
    ensures payload { result ≡ payload_of v }
    ensures back { decode (kind_of v) result ≡ v }
{
    match v {
        Value::Unset => 0,
        Value::Number(n) => n.cast_unsigned(),
        Value::Text(handle) => handle.index as u64,
        Value::Short(short) => short.word,
    }
}

// Cell i holds v; where there is no such cell, nothing is changed.
pub fn save(cells: &mut [u64], i: usize, v: Value)
    ensures words { cells.new ≡ saved cells.old i v }
    ensures values { decoded cells.new ≡ slice_set (decoded cells.old) i v }
{
    if i < cells.len() / 2 {
        cells[2 * i] = kind_of(v);
        cells[2 * i + 1] = payload_of(v);
    }
}

// One holder more, if it is a longer text.
pub fn keep(texts: &mut [u64], v: Value)
    requires { length texts.old ≡ 98304 }
    ensures { region texts.new ≡ kept 77822 (region texts.old) v }
{
    if let Value::Text(handle) = v {
        hold(texts, handle);
    }
}

// One holder less, if it is a longer text.
pub fn drop_value(texts: &mut [u64], v: Value)
    requires { length texts.old ≡ 98304 }
    ensures { region texts.new ≡ let_go 20480 77822 (region texts.old) v }
{
    if let Value::Text(handle) = v {
        release(texts, handle);
    }
}

// A new text: a short one where it is short enough, and otherwise one of the region, with one holder; or none, if there is no room.
pub fn new_text<T: Bytes>(texts: &mut [u64], t: &T) -> Option<Value>
    requires { length texts.old ≡ 98304 }
    ensures { ◌≡◌ {A = Made} (record { space = region texts.new; value = result }) (made 20480 77822 (region texts.old) (T.Bytes.bytes t.now)) }
{
    let n = t.len();
    if n <= LONGEST {
        return Some(Value::Short(short_of(t)));
    }
    let handle = allocate(texts, n)?;
    fill(texts, handle, 0, t);
    Some(Value::Text(handle))
}

// Room for a new value, in words of the texts that are held.
#[tactic(auto, using(crate::proofs::Meanings::makes_by_words))]
pub fn value_word_laws_stand()
    ensures { (T W : ℕ) → MakesByWords T W }
{}

// The laws of values over a region of texts, whatever its size.
#[tactic(auto, using(crate::proofs::Meanings::value_laws))]
pub fn value_laws_stand()
    ensures { (T W : ℕ) → ValueLaws T W }
{}
