// The places of the cube x·x² by number and name: the squares, the refresh that makes the first factor of them, and that product. Document 02,
// wish 8, decides their order.
ghost use Rattle.std.specs.Prelude.{◌≡◌, ◌+◌, ◌*◌, ◌≤◌, ◌<◌};
ghost use Rattle.xor.specs.Pairs.{pair_count};
ghost use Rattle.listing.specs.Most.{most};
ghost use Rattle.gadgets.specs.Cube.{cube_count};

use listing::lines;
use listing::lines::Lines;
use outcomes::Order;

// What is refreshed: the squares of the cube, or `q_0` and so on, which a listing of the S-box names.
#[derive(Clone, Copy)]
pub enum Of {
    Squares,
    Fourths,
}

// `x_0*x_0`
fn print_square(i: usize) {
    text::print_with(b"x_", i);
    text::print_with(b"*x_", i);
}

fn print_share(of: Of, i: usize) {
    match of {
        Of::Squares => print_square(i),
        Of::Fourths => text::print_with(b"q_", i),
    }
}

// `t(0,1)`, which both shares take in: so the smaller number stands first, whichever of the two is named.
fn print_draw(i: usize, j: usize) {
    if i < j {
        lines::print_of(b"t(", i, j);
    } else {
        lines::print_of(b"t(", j, i);
    }
}

// The first m draws that share i takes in, as `^t(0,1)`.
fn print_draws(i: usize, m: usize)
    requires { m ≤ 8 }
{
    for t in 0..m {
        text::print(b"^");
        print_draw(i, masking::steps::skip(i, t));
    }
}

// Share i and the first m draws that it takes in.
fn print_sum(of: Of, i: usize, m: usize)
    requires { m ≤ 8 }
{
    print_share(of, i);
    print_draws(i, m);
}

// The name of place k of the three of a pair i < j. By then share i has taken in j draws, those with the shares up to j, and share j those with the
// shares up to i.
fn print_of_pair(of: Of, i: usize, j: usize, k: usize)
    requires { (i < j) × (j ≤ 8) }
{
    match k {
        0 => print_draw(i, j),
        1 => print_sum(of, i, j),
        _ => print_sum(of, j, i + 1),
    }
}

// The places of a refresh of n shares.
pub fn refresh(lines: &mut Lines, of: Of, n: usize)
    requires { (n ≤ 9) × (lines.old.next + 3 * pair_count n ≤ most) }
    ensures { lines.new.next ≡ lines.old.next + 3 * pair_count n }
{
    lines.each_pair(n, 3, |i, j, k| print_of_pair(of, i, j, k));
}

// Share i, as `share` prints it, and the first m draws that it takes in.
fn print_named_sum<F: Fn(usize)>(share: &F, i: usize, m: usize)
    requires taken { m ≤ 8 }
    requires named { F.IsAlwaysCallable share.now }
{
    share(i);
    print_draws(i, m);
}

// The name of place k of the three of a pair, as above.
fn print_named_pair<F: Fn(usize)>(share: &F, i: usize, j: usize, k: usize)
    requires pair { (i < j) × (j ≤ 8) }
    requires named { F.IsAlwaysCallable share.now }
{
    match k {
        0 => print_draw(i, j),
        1 => print_named_sum(share, i, j),
        _ => print_named_sum(share, j, i + 1),
    }
}

// The same of shares whose names `share` prints, for a listing of others than `Of` has.
// Kept beside `refresh`, with what they print by: what the commands run stays as it was when this came back (docs/LOOK-BACK.md).
pub fn pairs<F: Fn(usize)>(lines: &mut Lines, n: usize, share: F)
    requires shares { n ≤ 9 }
    requires room { lines.old.next + 3 * pair_count n ≤ most }
    requires named { F.IsAlwaysCallable share }
    ensures { lines.new.next ≡ lines.old.next + 3 * pair_count n }
{
    lines.each_pair(n, 3, |i, j, k| print_named_pair(&share, i, j, k));
}

// All places of the cube at order d. In its product, a is the refreshed square and b is x.
#[tactic(auto, using(crate::proofs::CubeCounts::cube_count_parts))]
pub fn cube(lines: &mut Lines, d: Order)
    requires { lines.old.next + cube_count d ≤ most }
    ensures { lines.new.next ≡ lines.old.next + cube_count d }
{
    let n = d.shares();
    lines.each(n, print_square);
    refresh(lines, Of::Squares, n);
    listing::places::product(lines, d);
}

#[tactic(auto, using(crate::proofs::CubeCounts::cube_count_bound))]
pub fn print(d: usize, sheet: &[u8]) {
    if d <= 8 {
        cube(&mut Lines::new(sheet), Order::new(d));
    }
}
