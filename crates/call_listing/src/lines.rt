// A line of the listing: `FIRST..LAST WHAT`.
ghost use Rattle.std.specs.Prelude.{◌≡◌, ◌+◌, ◌≤◌};
ghost use Rattle.probing.specs.StringPlaces.{string_count};
ghost use Rattle.call_listing.specs.Walk.{most};

use listing::walk::Walk;
use outcomes::Order;

// The start of a line, for the next n places.
pub fn range(walk: &mut Walk, n: usize)
    requires { (1 ≤ n) × (walk.old.at + n ≤ most) }
    ensures { walk.new.at ≡ walk.old.at + n }
{
    text::print_number(walk.at);
    walk.at += n;
    text::print_with(b"..", walk.at - 1);
    text::print(b" ");
}

// The same for a string of m bytes in shares.
#[tactic(auto, using(place_counts::proofs::CountLaws::string_count_some))]
pub fn string(walk: &mut Walk, m: usize, d: Order)
    requires { (m ≤ 32) × (walk.old.at + string_count m d ≤ most) }
    ensures { walk.new.at ≡ walk.old.at + string_count m d }
{
    range(walk, place_counts::string_count(m, d));
}

// The end of a line: a name that ends with a number.
pub fn end(name: &[u8], i: usize) {
    text::print_with(name, i);
    text::print(b"\n");
}
