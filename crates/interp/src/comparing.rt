// Comparisons of what is on the stack.
ghost use Rattle.std.specs.Prelude.{◌≡◌, length, Ok};
ghost use Rattle.language.specs.Text.{text};
ghost use Rattle.store.specs.Numbers.{number};
ghost use Rattle.values.specs.Compare.{operator, worth};
ghost use Rattle.regions.specs.Parts.{parts};
ghost use Rattle.interp.specs.Outcomes.{came};
ghost use Rattle.interp.specs.Turns.{says, worth_in};
ghost use Rattle.interp.specs.Numbers.{Compares, figured};

use crate::Turn;
use crate::registers::Registers;
use crate::stack::{cover_two, top, under};
use crate::worth::{no_bytes, truth};
use regions::Memory;
use regions::texts::{release_value, text_view};
use store::bytes::Bytes;
use store::cells::Value;
use store::lent::Lent;
use values::compare::{Comparison, Operand, compare, plain_number};

fn compare_with_number<T: Bytes>(c: Comparison, a: Operand<T>, n: i64) -> bool
    ensures { Compares c result (worth T.Bytes.bytes a.entry) (number n) }
{
    compare(c, a, Operand::<Lent>::Number(n))
}

// A text becomes an operand only where it is of any type: the check covers no enum that refers to a struct with a ghost field, as a short text is.
#[tactic(auto, unfolding(crate::specs::Numbers::Compares))]
fn compare_with_text<A: Bytes, B: Bytes>(c: Comparison, a: Operand<A>, t: &B) -> bool
    ensures { Compares c result (worth A.Bytes.bytes a.entry) (text (B.Bytes.bytes t.now)) }
{
    compare(c, a, Operand::Text(t))
}

// How what is compared stands to a value.
fn compare_to<T: Bytes>(mem: &Memory, c: Comparison, a: Operand<T>, v: Value) -> bool
    ensures { Compares c result (worth T.Bytes.bytes a.entry) (worth_in (parts mem.now) v) }
{
    match v {
        Value::Unset => compare_with_text(c, a, &no_bytes()),
        Value::Number(n) => compare_with_number(c, a, n),
        Value::Short(short) => compare_with_text(c, a, &short),
        Value::Text(handle) => compare_with_text(c, a, &text_view(mem, handle)),
    }
}

fn compare_text_to<T: Bytes>(mem: &Memory, c: Comparison, t: &T, v: Value) -> bool
    ensures { Compares c result (text (T.Bytes.bytes t.now)) (worth_in (parts mem.now) v) }
{
    compare_to(mem, c, Operand::Text(t), v)
}

fn compare_values(mem: &Memory, c: Comparison, a: Value, b: Value) -> bool
    ensures { Compares c result (worth_in (parts mem.now) a) (worth_in (parts mem.now) b) }
{
    match a {
        Value::Unset => compare_text_to(mem, c, &no_bytes(), b),
        Value::Number(n) => compare_to(mem, c, Operand::<Lent>::Number(n), b),
        Value::Short(short) => compare_text_to(mem, c, &short, b),
        Value::Text(handle) => compare_text_to(mem, c, &text_view(mem, handle), b),
    }
}

// 1 if the two on top compare so, otherwise 0.
pub fn compare_two(mem: &mut Memory, regs: &mut Registers, c: Comparison) -> Turn
    ensures { says (came (Ok result)) (parts mem.new) regs.new ≡ figured (operator c) (parts mem.old) regs.old }
{
    let first = under(mem, regs);
    let second = top(mem, regs);
    // most values are seen to be numbers at once; without an arm that lets nothing go for them a loop that counts takes 1.05 times as long
    match (plain_number(first), plain_number(second)) {
        (Some(m), Some(n)) => {
            let b = compare_with_number(c, Operand::<Lent>::Number(m), n);
            cover_two(mem, regs, truth(b))
        }
        _ => {
            let b = compare_values(mem, c, first, second);
            release_value(mem, second);
            release_value(mem, first);
            cover_two(mem, regs, truth(b))
        }
    }
}
