// What the tests of a call ask, on numbers alone. Each routine's own tests stand beside it, in the order of document 01's table.
ghost use Rattle.std.specs.Prelude.{◌≡◌, true, suc, ◌≤◌};
ghost use Rattle.outcomes.specs.Outcome;

use crate::Order;

// Whether the order is one of 1 to 8. It is tested on the raw number, before order + 1 is formed.
pub fn served(order: usize) -> bool
    ensures { result ≡ Outcome.served order }
{
    if 0 < order {
        return order < 9;
    }
    false
}

// How many shares a byte has at that order, and 0 where the order is not served.
// Kept: a number. A call asks all its tests with it, and they look at it only behind the order's own.
pub fn share_count(order: usize) -> usize
    ensures { (Outcome.served order ≡ true → result ≡ suc order) × (result ≤ 9) }
{
    match Order::served(order) {
        Ok(d) => d.shares(),
        Err(_) => 0,
    }
}

// Which of the listed lengths one of n shares has, in a string of so many bytes, if any.
pub fn one_of(lengths: &[u8], n: usize, bytes: usize) -> Option<usize>
    requires { n ≤ 9 }
    ensures { result ≡ Outcome.listed_length lengths.now n bytes }
{
    for length in lengths {
        let l = *length as usize;
        if bytes == n * l {
            return Some(l);
        }
    }
    None
}

// The length of one of n shares in a string of that many bytes, if it is 16, 24 or 32.
pub fn share_length(n: usize, bytes: usize) -> Option<usize>
    requires { n ≤ 9 }
    ensures { result ≡ Outcome.listed_length Outcome.key_lengths n bytes }
{
    one_of(&[16, 24, 32], n, bytes)
}
