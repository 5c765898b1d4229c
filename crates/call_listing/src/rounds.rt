// The places of the rounds, in the order in which they run, of the cipher or of the inverse cipher.
ghost use Rattle.std.specs.Prelude.{◌≡◌, ◌+◌, ◌-◌, ◌≤◌};
ghost use Rattle.cipher.specs.Fips197 as Fips197;
ghost use Rattle.probing.specs.StringPlaces.{string_count};
ghost use Rattle.probing.specs.RoundPlaces.{last_round_count};
ghost use Rattle.call_listing.specs.Walk.{most, mix_of, round_of, rounds_of};

use crate::{boxes, lines};
use gf256::Direction;
use listing::walk::Walk;
use outcomes::Order;

// How many places MixColumns or InvMixColumns has.
#[tactic(auto, unfolding(crate::specs::Walk::mix_of))]
fn mix_count(w: Direction, d: Order) -> usize
    ensures { result ≡ mix_of w d }
{
    match w {
        Direction::Forward => d.shares() * 81,
        Direction::Inverse => d.shares() * 113,
    }
}

// Its line.
#[tactic(auto, using(crate::proofs::WalkLaws::mix_some))]
fn mixed(walk: &mut Walk, w: Direction, d: Order, r: usize)
    requires { walk.old.at + mix_of w d ≤ most }
    ensures { walk.new.at ≡ walk.old.at + mix_of w d }
{
    lines::range(walk, mix_count(w, d));
    match w {
        Direction::Forward => lines::end(b"MixColumns of round ", r),
        Direction::Inverse => lines::end(b"InvMixColumns of round ", r),
    }
}

fn added(walk: &mut Walk, d: Order, r: usize)
    requires { walk.old.at + string_count 16 d ≤ most }
    ensures { walk.new.at ≡ walk.old.at + string_count 16 d }
{
    lines::string(walk, 16, d);
    lines::end(b"AddRoundKey of round ", r);
}

// What stands behind the S-boxes of a round that is not the last.
fn linear(walk: &mut Walk, w: Direction, d: Order, r: usize)
    requires { walk.old.at + (mix_of w d + string_count 16 d) ≤ most }
    ensures { walk.new.at ≡ walk.old.at + (mix_of w d + string_count 16 d) }
{
    match w {
        Direction::Forward => {
            mixed(walk, w, d, r);
            added(walk, d, r)
        }
        Direction::Inverse => {
            added(walk, d, r);
            mixed(walk, w, d, r)
        }
    }
}

#[tactic(auto, using(crate::proofs::WalkLaws::round_of_parts))]
fn round(walk: &mut Walk, w: Direction, d: Order, r: usize)
    requires { walk.old.at + round_of w d ≤ most }
    ensures { walk.new.at ≡ walk.old.at + round_of w d }
{
    boxes::of_round(walk, d, r);
    linear(walk, w, d, r);
}

#[tactic(auto, unfolding(probing::specs::RoundPlaces::last_round_count))]
fn last_round(walk: &mut Walk, d: Order, r: usize)
    requires { walk.old.at + last_round_count d ≤ most }
    ensures { walk.new.at ≡ walk.old.at + last_round_count d }
{
    boxes::of_round(walk, d, r);
    added(walk, d, r);
}

// All rounds.
#[tactic(auto, using(crate::proofs::WalkLaws::rounds_counts))]
pub fn rounds(walk: &mut Walk, w: Direction, nk: usize, d: Order)
    requires { (nk ≤ 8) × (walk.old.at + rounds_of w (Fips197.rounds nk - 1) d ≤ most) }
    ensures { walk.new.at ≡ walk.old.at + rounds_of w (Fips197.rounds nk - 1) d }
{
    for r in 1..nk + 6 {
        round(walk, w, d, r);
    }
    last_round(walk, d, nk + 6);
}
