// How values compare: as numbers if both look like numbers, otherwise as texts.
ghost use Rattle.std.specs.Prelude.{◌≡◌};
ghost use Rattle.language.specs.Text.{earlier, number_of, less_number, less, alike, holds, truth, text};
ghost use Rattle.language.specs.Meaning.{State, got, reckon};
ghost use Rattle.store.specs.Numbers.{number};
ghost use Rattle.values.specs.Compare.{Ordered, worth, operator, plain_number};

use crate::texts::{looks, number_of, plain_digits};
use std::cmp::Ordering;
use store::bytes::Bytes;
use store::cells::Value;
use store::decimal::decimal_of;

// A value that is compared.
#[derive_where(Clone, Copy)]
pub enum Operand<'a, T> {
    Number(i64),
    Text(&'a T),
}

impl<'a, T> Operand<'a, T> {
    // A number, beside texts of any kind.
    pub fn number(n: i64) -> Operand<'a, T>
        ensures { result ≡ Operand.Number n }
    {
        Operand::Number(n)
    }
}

#[derive(Clone, Copy)]
pub enum Comparison {
    Equal,
    Unequal,
    Less,
    AtMost,
    Above,
    AtLeast,
}

fn order_numbers(a: i64, b: i64) -> Ordering
    ensures { Ordered less_number (number a) (number b) result }
{
    a.cmp(&b)
}

// Byte by byte; a text comes before any longer one that begins with it.
fn order_bytes<A: Bytes, B: Bytes>(a: &A, b: &B) -> Ordering
    ensures { Ordered earlier (A.Bytes.bytes a.now) (B.Bytes.bytes b.now) result }
{
    let m = a.len();
    let n = b.len();
    for i in 0..m.min(n) {
        match a.at(i).cmp(&b.at(i)) {
            Ordering::Equal => {}
            found => return found,
        }
    }
    m.cmp(&n)
}

// Whether the first text comes before the second, byte by byte.
pub fn earlier<A: Bytes, B: Bytes>(a: &A, b: &B) -> bool
    ensures { result ≡ earlier (A.Bytes.bytes a.now) (B.Bytes.bytes b.now) }
{
    order_bytes(a, b).is_lt()
}

pub fn less_numbers(a: i64, b: i64) -> bool
    ensures { result ≡ less_number (number a) (number b) }
{
    order_numbers(a, b).is_lt()
}

// The order of a text and a number.
fn order_text_number<T: Bytes>(t: &T, n: i64) -> Ordering
    ensures { Ordered less (text (T.Bytes.bytes t.now)) (number n) result }
{
    if looks(t) {
        order_numbers(number_of(t), n)
    } else {
        order_bytes(t, &decimal_of(n))
    }
}

fn order_texts<A: Bytes, B: Bytes>(a: &A, b: &B) -> Ordering
    ensures { Ordered less (text (A.Bytes.bytes a.now)) (text (B.Bytes.bytes b.now)) result }
{
    if looks(a) && looks(b) {
        order_numbers(number_of(a), number_of(b))
    } else {
        order_bytes(a, b)
    }
}

// The order of two values; equal are those of which neither is less.
pub fn order<A: Bytes, B: Bytes>(a: Operand<A>, b: Operand<B>) -> Ordering
    ensures { Ordered less (worth A.Bytes.bytes a.entry) (worth B.Bytes.bytes b.entry) result }
{
    match (a, b) {
        (Operand::Number(m), Operand::Number(n)) => order_numbers(m, n),
        (Operand::Number(m), Operand::Text(t)) => order_text_number(t, m).reverse(),
        (Operand::Text(s), Operand::Number(n)) => order_text_number(s, n),
        (Operand::Text(s), Operand::Text(t)) => order_texts(s, t),
    }
}

pub fn less<A: Bytes, B: Bytes>(a: Operand<A>, b: Operand<B>) -> bool
    ensures { result ≡ less (worth A.Bytes.bytes a.entry) (worth B.Bytes.bytes b.entry) }
{
    order(a, b).is_lt()
}

pub fn alike<A: Bytes, B: Bytes>(a: Operand<A>, b: Operand<B>) -> bool
    ensures { result ≡ alike (worth A.Bytes.bytes a.entry) (worth B.Bytes.bytes b.entry) }
{
    order(a, b).is_eq()
}

// What a comparison of two values comes to.
pub fn compare<A: Bytes, B: Bytes>(c: Comparison, a: Operand<A>, b: Operand<B>) -> bool
    ensures { (s : State) → got (truth result) s ≡ reckon (operator c) (worth A.Bytes.bytes a.entry) (worth B.Bytes.bytes b.entry) s }
{
    let found = order(a, b);
    match c {
        Comparison::Equal => found.is_eq(),
        Comparison::Unequal => found.is_ne(),
        Comparison::Less => found.is_lt(),
        Comparison::AtMost => found.is_le(),
        Comparison::Above => found.is_gt(),
        Comparison::AtLeast => found.is_ge(),
    }
}

// The number that a value is taken as.
pub fn as_number<T: Bytes>(v: Operand<T>) -> i64
    ensures { number result ≡ number_of (worth T.Bytes.bytes v.entry) }
{
    match v {
        Operand::Number(n) => n,
        Operand::Text(t) => number_of(t),
    }
}

// The number as which a value is compared, where that is seen at once: a number, or a short text of digits alone.
pub fn plain_number(v: Value) -> Option<i64>
    ensures { result ≡ plain_number v }
{
    match v {
        Value::Number(n) => Some(n),
        Value::Short(short) => Some(plain_digits(&short)? as i64),
        _ => None,
    }
}

// Whether a number counts as true.
pub fn number_holds(n: i64) -> bool
    ensures { result ≡ holds (number n) }
{
    n != 0
}

// Whether a text counts as true.
pub fn text_holds<T: Bytes>(t: &T) -> bool
    ensures { result ≡ holds (text (T.Bytes.bytes t.now)) }
{
    t.len() > 0
}

// Whether a value counts as true.
pub fn holds<T: Bytes>(v: Operand<T>) -> bool
    ensures { result ≡ holds (worth T.Bytes.bytes v.entry) }
{
    match v {
        Operand::Number(n) => number_holds(n),
        Operand::Text(t) => text_holds(t),
    }
}
