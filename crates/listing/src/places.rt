// The places of a product by number and name, in document 01's order.
ghost use Rattle.std.specs.Prelude.{◌≡◌, ◌+◌, ◌≤◌};
ghost use Rattle.isw.specs.Place.{place_count};
ghost use Rattle.listing.specs.Most.{most};

use crate::lines;
use crate::lines::Lines;
use outcomes::Order;

// `a_0*b_1`
fn print_cross(i: usize, j: usize) {
    text::print_with(b"a_", i);
    text::print_with(b"*b_", j);
}

// `r(0,1)`
fn print_draw(i: usize, j: usize) {
    lines::print_of(b"r(", i, j);
}

// `r(0,1)^a_0*b_1`
fn print_half(i: usize, j: usize) {
    print_draw(i, j);
    text::print(b"^");
    print_cross(i, j);
}

// The name of place k of the five of a pair i < j.
fn print_of_pair(i: usize, j: usize, k: usize) {
    match k {
        0 => print_draw(i, j),
        1 => print_cross(i, j),
        2 => print_half(i, j),
        3 => print_cross(j, i),
        _ => print_draw(j, i),
    }
}

// `a_0*b_0` and the first m terms of row i behind it, as `^r(0,1)`.
fn print_sum(i: usize, m: usize)
    requires { m ≤ 8 }
{
    print_cross(i, i);
    for t in 0..m {
        text::print(b"^");
        print_draw(i, masking::steps::skip(i, t));
    }
}

// The name of row i after m of its d terms; after all of them it is `c_0` and so on.
fn print_part(d: Order, i: usize, m: usize)
    requires { m ≤ 8 }
{
    if m == d.number() {
        text::print_with(b"c_", i);
    } else {
        print_sum(i, m);
    }
}

// `a_0` and so on: the n shares of a factor.
pub fn factor(lines: &mut Lines, of: &[u8], n: usize)
    requires { lines.old.next + n ≤ most }
    ensures { lines.new.next ≡ lines.old.next + n }
{
    lines.each(n, |i| text::print_with(of, i));
}

// All places of a product of order d: two factors, the pairs, and the running sums of each row.
#[tactic(auto, using(crate::proofs::CountLaws::place_count_parts))]
pub fn product(lines: &mut Lines, d: Order)
    requires { lines.old.next + place_count d ≤ most }
    ensures { lines.new.next ≡ lines.old.next + place_count d }
{
    let n = d.shares();
    factor(lines, b"a_", n);
    factor(lines, b"b_", n);
    lines.each_pair(n, 5, print_of_pair);
    lines.each(n * n, |t| print_part(d, t / n, t % n));
}

#[tactic(auto, using(crate::proofs::CountLaws::place_count_bound))]
pub fn print(d: usize, sheet: &[u8]) {
    if d <= 8 {
        product(&mut Lines::new(sheet), Order::new(d));
    }
}
