// The places of power 254, in the three stages in which the S-box takes it.
ghost use Rattle.std.specs.Prelude.{◌≡◌, ◌+◌, ◌≤◌};
ghost use Rattle.listing.specs.Most.{most};
ghost use Rattle.probing.specs.BoxPlaces.{times_count, first_count, second_count, last_count, power_count};

use crate::groups;
use command_cubes::names;
use command_cubes::names::Of;
use listing::lines::Lines;
use listing::places;
use outcomes::Order;

// A product and the factors of its field products, each under its title.
#[tactic(auto, using(crate::proofs::PartLaws::times_count_parts))]
fn times(lines: &mut Lines, d: Order, title: &[u8], factors: &[u8])
    requires { lines.old.next + times_count d ≤ most }
    ensures { lines.new.next ≡ lines.old.next + times_count d }
{
    text::print(title);
    places::product(lines, d);
    text::print(factors);
    groups::factors(lines, d.shares());
}

// z = x², refreshed, and y = z·x. The title of x is the caller's.
#[tactic(auto, using(crate::proofs::PartLaws::first_count_parts))]
fn first_stage(lines: &mut Lines, d: Order)
    requires { lines.old.next + first_count d ≤ most }
    ensures { lines.new.next ≡ lines.old.next + first_count d }
{
    let n = d.shares();
    places::factor(lines, b"x_", n);
    text::print(b"z = x*x refreshed; y = z*x: a is z, b is x, c is y\n");
    names::cube(lines, d);
    text::print(b"y = z*x: both factors of each field product, as one value\n");
    groups::factors(lines, n);
}

// w = y⁴, refreshed, and v = y·w.
#[tactic(auto, using(crate::proofs::PartLaws::second_count_parts))]
fn second_stage(lines: &mut Lines, d: Order)
    requires { lines.old.next + second_count d ≤ most }
    ensures { lines.new.next ≡ lines.old.next + second_count d }
{
    let n = d.shares();
    text::print(b"q = y to the 4; w = q refreshed\n");
    groups::powers(lines, b"y_", n, 3);
    names::refresh(lines, Of::Fourths, n);
    times(
        lines,
        d,
        b"v = y*w: a is y, b is w, c is v\n",
        b"v = y*w: both factors of each field product, as one value\n",
    );
}

// u = v¹⁶·w, and p = u·z.
#[tactic(auto, using(crate::proofs::PartLaws::last_count_parts))]
fn last_stage(lines: &mut Lines, d: Order)
    requires { lines.old.next + last_count d ≤ most }
    ensures { lines.new.next ≡ lines.old.next + last_count d }
{
    text::print(b"s = v to the 16\n");
    groups::powers(lines, b"v_", d.shares(), 5);
    times(
        lines,
        d,
        b"u = s*w: a is s, b is w, c is u\n",
        b"u = s*w: both factors of each field product, as one value\n",
    );
    times(
        lines,
        d,
        b"p = u*z, x to the 254: a is u, b is z, c is p\n",
        b"p = u*z: both factors of each field product, as one value\n",
    );
}

#[tactic(auto, using(crate::proofs::PartLaws::power_count_parts))]
pub fn power(lines: &mut Lines, d: Order)
    requires { lines.old.next + power_count d ≤ most }
    ensures { lines.new.next ≡ lines.old.next + power_count d }
{
    first_stage(lines, d);
    second_stage(lines, d);
    last_stage(lines, d);
}
