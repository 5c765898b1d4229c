// The groups that are no product, cube or refresh: the powers of each share, the affine map of each share, the factors of a product's fields.
ghost use Rattle.std.specs.Prelude.{◌≡◌, ◌+◌, ◌*◌, ◌≤◌};
ghost use Rattle.listing.specs.Most.{most};

use listing::lines::Lines;

// How the places of an affine map are named: its input, its constant behind the bracket of the linear part, and its output.
#[derive(Clone, Copy)]
pub struct AffineNames<'a> {
    pub input: &'a [u8],
    pub constant: &'a [u8],
    pub output: &'a [u8],
}

// `y_0`, and after k squarings `y_0 to the 4`.
fn print_power(of: &[u8], i: usize, k: usize)
    requires { k ≤ 4 }
{
    text::print_with(of, i);
    if k > 0 {
        text::print_with(b" to the ", 1 << k);
    }
}

// Of each of n shares itself, its square, and so on, each the square of the one before it: m of them.
pub fn powers(lines: &mut Lines, of: &[u8], n: usize, m: usize)
    requires { (m ≤ 5) × (lines.old.next + n * m ≤ most) }
    ensures { lines.new.next ≡ lines.old.next + n * m }
{
    lines.each(n * m, |t| print_power(of, t / m, t % m));
}

// `L(p_0`, the linear part of a map of share `p_0`, and what ends it.
fn print_linear_part(of: &[u8], i: usize, end: &[u8]) {
    text::print(b"L(");
    text::print_with(of, i);
    text::print(end);
}

// The name of place k of the four of share i: itself, the linear part, the map, and share i of the output.
fn print_affine(names: AffineNames, i: usize, k: usize) {
    match k {
        0 => text::print_with(names.input, i),
        1 => print_linear_part(names.input, i, b")"),
        2 => print_linear_part(names.input, i, names.constant),
        _ => text::print_with(names.output, i),
    }
}

// An affine map of n shares.
pub fn affine(lines: &mut Lines, names: AffineNames, n: usize)
    requires { lines.old.next + n * 4 ≤ most }
    ensures { lines.new.next ≡ lines.old.next + n * 4 }
{
    lines.each(n * 4, |t| print_affine(names, t / 4, t % 4));
}

// `a_0 with b_1`: the factors of a field product, as one value.
fn print_factors(i: usize, j: usize) {
    text::print_with(b"a_", i);
    text::print_with(b" with b_", j);
}

// The factors of all field products of a product of n shares.
pub fn factors(lines: &mut Lines, n: usize)
    requires { (1 ≤ n) × (n ≤ 9) × (lines.old.next + n * n ≤ most) }
    ensures { lines.new.next ≡ lines.old.next + n * n }
{
    lines.each(n * n, |t| print_factors(t / n, t % n));
}
