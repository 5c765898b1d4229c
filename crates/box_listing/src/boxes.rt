// The listing of an S-box or of an inverse S-box.
ghost use Rattle.std.specs.Prelude.{◌≡◌, ◌+◌, ◌≤◌};
ghost use Rattle.listing.specs.Most.{most};
ghost use Rattle.probing.specs.BoxPlaces.{box_count};

use crate::groups;
use crate::groups::AffineNames;
use gf256::Direction;
use listing::lines::Lines;
use outcomes::Order;

// Power 254, and then the affine map.
#[tactic(auto, using(crate::proofs::PartLaws::box_count_parts))]
fn forward(lines: &mut Lines, d: Order)
    requires { lines.old.next + box_count d ≤ most }
    ensures { lines.new.next ≡ lines.old.next + box_count d }
{
    text::print(b"x: the shares of the input\n");
    crate::power::power(lines, d);
    text::print(
        b"o, the output: the affine map of p, L its linear part; at odd orders o_0 has 63 once more\n",
    );
    let names = AffineNames {
        input: b"p_",
        constant: b")^63",
        output: b"o_",
    };
    groups::affine(lines, names, d.shares());
}

// The inverse affine map, and then power 254.
#[tactic(auto, using(crate::proofs::PartLaws::box_count_parts))]
fn inverse(lines: &mut Lines, d: Order)
    requires { lines.old.next + box_count d ≤ most }
    ensures { lines.new.next ≡ lines.old.next + box_count d }
{
    text::print(
        b"i, the input; x: the inverse affine map of i, L its linear part; at odd orders x_0 has 05 once more\n",
    );
    let names = AffineNames {
        input: b"i_",
        constant: b")^05",
        output: b"x_",
    };
    groups::affine(lines, names, d.shares());
    text::print(b"x; its power 254, p, is the output\n");
    crate::power::power(lines, d);
}

// All places. Answers with their number.
#[tactic(auto, using(place_counts::proofs::CountLaws::box_count_bound))]
pub fn print(w: Direction, d: Order) -> usize
    ensures { result ≡ box_count d }
{
    let mut lines = Lines::new(&[]);
    match w {
        Direction::Forward => forward(&mut lines, d),
        Direction::Inverse => inverse(&mut lines, d),
    }
    lines.next
}
