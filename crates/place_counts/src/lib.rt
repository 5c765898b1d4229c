// How many places the parts of a masked call have. The definitions that decide are `probing`'s, and the contracts name them.
#![tactic(auto)]

ghost use Rattle.std.specs.Prelude.{◌≡◌, ◌≤◌};
ghost use Rattle.probing.specs.BoxPlaces as BoxPlaces;
ghost use Rattle.probing.specs.StringPlaces as StringPlaces;

use outcomes::Order;

// Of an S-box, or of an inverse S-box.
#[tactic(auto, using(crate::proofs::CountLaws::box_count_made))]
pub fn box_count(d: Order) -> usize
    ensures { result ≡ BoxPlaces.box_count d }
{
    3 * d.shares() * (7 * d.number() + 10)
}

// Of a string of m bytes in shares: each share as one value, and its bytes.
#[tactic(auto, using(crate::proofs::CountLaws::string_count_made))]
pub fn string_count(m: usize, d: Order) -> usize
    requires { m ≤ 32 }
    ensures { result ≡ StringPlaces.string_count m d }
{
    d.shares() * (m + 1)
}
