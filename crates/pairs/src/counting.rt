// How many pairs of shares there are: each draws one byte. Whatever is drawn for pairs is counted from here, and so are the products of two shares.
ghost use Rattle.std.specs.Prelude.{◌≡◌, suc, ◌*◌, ◌≤◌};
ghost use Rattle.xor.specs.Pairs as Pairs;

use outcomes::Order;

// The most there are, at order 8.
pub const MOST: usize = 36;

// How many the n shares of order d have.
pub fn pair_count(d: Order) -> usize
    ensures { (result ≡ Pairs.pair_count (suc d)) × (result ≤ 36) }
{
    d.number() * d.shares() / 2
}

// How many products of two shares a masked product of order d has: each share of one factor times each of the other.
pub fn product_count(d: Order) -> usize
    ensures { (result ≡ suc d * suc d) × (result ≤ 81) }
{
    d.shares() * d.shares()
}
