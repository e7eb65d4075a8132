// The decimal text of a number.
ghost use Rattle.std.specs.Prelude.{◌≡◌, ℕ, ◌+◌, ◌*◌, ◌%◌, ◌^◌, ◌<◌, ◌≤◌, [], length, drop};
ghost use Rattle.language.specs.Text.{digits, as_text};
ghost use Rattle.store.specs.Numbers.{number};

use crate::bytes::Bytes;

// A number has at most 19 digits, and perhaps a sign before them.
const ROW: usize = 20;

// The text is what stands in the row from `from` on.
#[derive(Clone, Copy)]
pub struct Decimal {
    row: [u8; ROW],
    from: usize,
    ghost inside: { from ≤ 20 },
}

// Writes the digits of n at the end of the row, and says where they begin. The number itself ends the loop. By hand, since std's `to_string` allocates, and the
// crate `itoa`, which needs no heap, has unsafe code: nothing more is to be trusted.
fn put_digits(n: u64, row: &mut [u8; ROW]) -> usize
    requires { n < 10 ^ 19 }
    ensures inside { (1 ≤ result) × (result ≤ 20) }
    ensures digits { drop result row.new ≡ digits 20 n [] }
{
    let mut m = n;
    let mut k = ROW - 1;
    row[k] = b'0' + (m % 10) as u8;
    while m >= 10 {
        m /= 10;
        k -= 1;
        row[k] = b'0' + (m % 10) as u8;
    }
    k
}

pub fn decimal_of(n: i64) -> Decimal
    ensures { drop result.from result.row ≡ as_text (number n) }
{
    let mut row = [0u8; ROW];
    let from = put_digits(n.unsigned_abs(), &mut row);
    if n >= 0 {
        return Decimal { row, from };
    }
    let from = from - 1;
    row[from] = b'-';
    Decimal { row, from }
}

impl Bytes for Decimal {
    ghost bytes = { λ d. drop d.from d.row };

    fn len(&self) -> usize {
        ROW - self.from
    }

    fn at(&self, i: usize) -> u8 {
        if i < ROW - self.from {
            self.row[self.from + i]
        } else {
            0
        }
    }
}
