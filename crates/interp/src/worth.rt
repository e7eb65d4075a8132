// What a value is taken as: a number, or a condition.
ghost use Rattle.std.specs.Prelude.{◌≡◌, [], length};
ghost use Rattle.language.specs.Text.{number_of, holds};
ghost use Rattle.store.specs.Numbers.{number};
ghost use Rattle.store.specs.Words.{bytes_of};
ghost use Rattle.regions.specs.Parts.{parts};
ghost use Rattle.interp.specs.Turns.{worth_in, truth_of};

use regions::Memory;
use regions::texts::text_view;
use store::cells::Value;
use store::short::Short;
use values::compare::{number_holds, text_holds};
use values::texts::number_of;

// The number that a value is taken as.
#[tactic(auto, unfolding(language::specs::Text::number_of, language::specs::Text::signed, language::specs::Text::no_blanks))]
pub fn number_in(mem: &Memory, v: Value) -> i64
    ensures { number result ≡ number_of (worth_in (parts mem.now) v) }
{
    match v {
        Value::Unset => 0,
        Value::Number(n) => n,
        Value::Short(short) => number_of(&short),
        Value::Text(handle) => number_of(&text_view(mem, handle)),
    }
}

// Whether a value counts as true.
#[tactic(auto, unfolding(language::specs::Text::holds))]
pub fn holds_in(mem: &Memory, v: Value) -> bool
    ensures { result ≡ holds (worth_in (parts mem.now) v) }
{
    match v {
        Value::Unset => false,
        Value::Number(n) => number_holds(n),
        Value::Short(short) => text_holds(&short),
        Value::Text(handle) => text_holds(&text_view(mem, handle)),
    }
}

// The short text without bytes, as what is not set is taken.
#[tactic(auto, unfolding(store::specs::Words::bytes_of))]
pub fn no_bytes() -> Short
    ensures { bytes_of result.len result.word ≡ [] }
{
    Short { word: 0, len: 0 }
}

// 1 or 0.
pub fn truth(b: bool) -> Value
    ensures { result ≡ truth_of b }
{
    Value::Number(i64::from(b))
}
