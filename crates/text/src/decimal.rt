// Decimal digits.
ghost use Rattle.std.specs.Prelude.{◌≡◌, ◌≤◌, length};
ghost use Rattle.text.specs.Decimal.{decimal};
ghost use Rattle.text.specs.Place.{stored, text_at};

use crate::place;

// How many decimal digits a number has.
fn digit_count(n: u64) -> usize
    ensures value { result ≡ length (decimal n) }
    ensures upper_bound { result ≤ 20 }
{
    if n < 10 {
        return 1;
    }
    n.ilog10() as usize + 1
}

// Stores the decimal digits of a number at a place, the last digit first.
pub fn put_decimal(text: &mut [u8], at: usize, n: u64) -> usize
    ensures { stored result text.new ≡ text_at text.old at (decimal n) }
{
    let k = digit_count(n);
    let mut left = n;
    for i in (0..k).rev() {
        parts::put_in(text, at, i, b'0' + (left % 10) as u8);
        left /= 10;
    }
    place::after(at, k)
}
