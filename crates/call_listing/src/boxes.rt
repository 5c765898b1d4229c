// The S-boxes of a call, or its inverse S-boxes: a line for each. They are numbered and named as `listing` does for the tape.
ghost use Rattle.std.specs.Prelude.{◌≡◌, ◌+◌, ◌≤◌};
ghost use Rattle.cipher.specs.Cipher.{in_word, by_rows};
ghost use Rattle.probing.specs.BoxPlaces.{box_count};
ghost use Rattle.probing.specs.StringPlaces.{subs_count};
ghost use Rattle.call_listing.specs.Walk.{most};

use crate::lines;
use listing::walk::{Part, Walk};
use outcomes::Order;

// The S-box that byte k goes into.
#[tactic(auto, using(place_counts::proofs::CountLaws::box_count_some))]
fn sbox(walk: &mut Walk, d: Order, part: Part, k: usize)
    requires { walk.old.at + box_count d ≤ most }
    ensures { walk.new.at ≡ walk.old.at + box_count d }
{
    lines::range(walk, place_counts::box_count(d));
    walk.name_box(part, k);
    text::print(b"\n");
}

// Those for word i of the expanded key, of the bytes of the word before it.
#[tactic(auto, using(crate::proofs::WalkLaws::boxes_fit, crate::proofs::WalkLaws::subs_count_word))]
pub fn of_word(walk: &mut Walk, d: Order, i: usize)
    requires { walk.old.at + subs_count d in_word ≤ most }
    ensures { walk.new.at ≡ walk.old.at + subs_count d in_word }
{
    for k in 0..4usize {
        sbox(walk, d, Part::KeyWord(i), k);
    }
}

// Those of round r, row by row.
#[tactic(auto, using(crate::proofs::WalkLaws::boxes_fit, crate::proofs::WalkLaws::subs_count_rows))]
pub fn of_round(walk: &mut Walk, d: Order, r: usize)
    requires { walk.old.at + subs_count d by_rows ≤ most }
    ensures { walk.new.at ≡ walk.old.at + subs_count d by_rows }
{
    for m in 0..16usize {
        sbox(walk, d, Part::Round(r), m / 4 + 4 * (m % 4));
    }
}
