// Arithmetic within the language's bounds.
ghost use Rattle.std.specs.Prelude.{◌≡◌, pos, ◌≢◌, int_div, int_rem};
ghost use Rattle.language.specs.Text.{Value, number_of, within, sum, opposite, product};
ghost use Rattle.language.specs.Meaning.{State, quotient_got, left_over_got, reckon};
ghost use Rattle.store.specs.Numbers.{number};
ghost use Rattle.values.specs.Numbers.{judged, divided, operation};

// Numbers of the language go from -2^62 to 2^62 - 1.
const LEAST: i128 = -4_611_686_018_427_387_904;

const MOST: i128 = 4_611_686_018_427_387_903;

// Why a quotient or a remainder has no value.
#[derive(Clone, Copy)]
pub enum Trouble {
    ByZero,
    TooLarge,
}

#[derive(Clone, Copy)]
pub enum Arithmetic {
    Add,
    Subtract,
    Multiply,
    Divide,
    Remainder,
}

// A number, if it is one of the language's.
fn in_bounds(z: i128) -> Option<i64>
    ensures { judged result ≡ within (number z) }
{
    match z {
        LEAST..=MOST => Some(z as i64),
        _ => None,
    }
}

// Each of the next four answers None where the result is out of bounds. They share `in_bounds` alone.

pub fn add(a: i64, b: i64) -> Option<i64>
    ensures { judged result ≡ within (sum (number a) (number b)) }
{
    in_bounds(a as i128 + b as i128)
}

pub fn subtract(a: i64, b: i64) -> Option<i64>
    ensures { judged result ≡ within (sum (number a) (opposite (number b))) }
{
    in_bounds(a as i128 - b as i128)
}

pub fn multiply(a: i64, b: i64) -> Option<i64>
    ensures { judged result ≡ within (product (number a) (number b)) }
{
    in_bounds(a as i128 * b as i128)
}

pub fn negate(a: i64) -> Option<i64>
    ensures { judged result ≡ within (opposite (number a)) }
{
    in_bounds(-(a as i128))
}

// The quotient, rounded towards 0. Only a quotient by -1 may need more than 64 bits.
fn quotient_of(a: i64, b: i64) -> i128
    requires { b ≢ pos 0 }
    ensures { result ≡ int_div a b }
{
    if b == -1 {
        -(a as i128)
    } else {
        (a / b) as i128
    }
}

// The remainder, with the sign of the first.
fn rest_of(a: i64, b: i64) -> i64
    requires { b ≢ pos 0 }
    ensures { result ≡ int_rem a b }
{
    if b == -1 { 0 } else { a % b }
}

// The quotient, if it is one of the language's numbers.
pub fn divide(a: i64, b: i64) -> Result<i64, Trouble>
    ensures { (s : State) → divided result s ≡ quotient_got (number a) (number b) s }
{
    if b == 0 {
        return Err(Trouble::ByZero);
    }
    in_bounds(quotient_of(a, b)).ok_or(Trouble::TooLarge)
}

// The remainder, if it is one of them. It shares with `divide` the test for 0 alone.
pub fn remainder(a: i64, b: i64) -> Result<i64, Trouble>
    ensures { (s : State) → divided result s ≡ left_over_got (number a) (number b) s }
{
    if b == 0 {
        return Err(Trouble::ByZero);
    }
    in_bounds(rest_of(a, b) as i128).ok_or(Trouble::TooLarge)
}

// An operator on two values, given the numbers that they are taken as.
pub fn calculate(c: Arithmetic, a: i64, b: i64) -> Result<i64, Trouble>
    ensures { (v w : Value) (s : State) → number_of v ≡ number a → number_of w ≡ number b → divided result s ≡ reckon (operation c) v w s }
{
    match c {
        Arithmetic::Add => add(a, b).ok_or(Trouble::TooLarge),
        Arithmetic::Subtract => subtract(a, b).ok_or(Trouble::TooLarge),
        Arithmetic::Multiply => multiply(a, b).ok_or(Trouble::TooLarge),
        Arithmetic::Divide => divide(a, b),
        Arithmetic::Remainder => remainder(a, b),
    }
}
