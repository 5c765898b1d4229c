// The listing of a whole call: how its lines are read, the shares of the key and of the block, the key expansion, the rounds.
ghost use Rattle.std.specs.Prelude.{◌≡◌, ◌+◌, ◌*◌, ◌≤◌};
ghost use Rattle.probing.specs.StringPlaces.{string_count};
ghost use Rattle.probing.specs.CallPlaces.{call_count};
ghost use Rattle.call_listing.specs.Walk.{most, with_of};

use crate::lines;
use gf256::Direction;
use lengths::key::KeyWords;
use listing::walk::Walk;
use outcomes::Order;

// How the places of a range are ordered.
fn print_reading(w: Direction) {
    text::print(
        b"strings in shares: each share as one value, then the bytes of share 0, of share 1 and so on\n",
    );
    match w {
        Direction::Forward => text::print(
            b"S-boxes: as places box lists them
MixColumns: of each share, it as one value, then of each byte 02*a, 03*b, their sum, that with c, that with d; a to d: its column from its row on\n",
        ),
        Direction::Inverse => text::print(
            b"S-boxes: of key words as places box lists them, of rounds as places inverse-box does
InvMixColumns: of each share, it as one value, then of each byte 0e*a, 0b*b, their sum, 0d*c, that sum with it, 09*d, that sum with it;
a to d: its column from its row on
round 1 is the first to run, and state bytes are those after InvShiftRows\n",
        ),
    }
}

// The shares of the key and of the block.
fn inputs(walk: &mut Walk, nk: usize, d: Order)
    requires { (nk ≤ 8) × (walk.old.at + string_count (4 * nk) d + string_count 16 d ≤ most) }
    ensures { walk.new.at ≡ walk.old.at + string_count (4 * nk) d + string_count 16 d }
{
    lines::string(walk, 4 * nk, d);
    text::print(b"key shares\n");
    lines::string(walk, 16, d);
    text::print(b"block shares\n");
}

// What follows the key expansion: the block plus the first round key that is used, and the rounds.
#[tactic(auto, using(crate::proofs::WalkLaws::with_of_parts))]
fn with_keys(walk: &mut Walk, w: Direction, nk: usize, d: Order)
    requires { (nk ≤ 8) × (walk.old.at + with_of w nk d ≤ most) }
    ensures { walk.new.at ≡ walk.old.at + with_of w nk d }
{
    lines::string(walk, 16, d);
    let first = match w {
        Direction::Forward => 0,
        Direction::Inverse => nk + 6,
    };
    lines::end(b"block plus round key ", first);
    crate::rounds::rounds(walk, w, nk, d);
}

// All places of a call with a key of that size. Answers with their number.
#[tactic(auto, using(crate::proofs::WalkLaws::call_count_parts))]
pub fn print(w: Direction, key: KeyWords, d: Order) -> usize
    ensures { result ≡ call_count w key.nk d }
{
    print_reading(w);
    let nk = key.nk;
    let mut walk = Walk::new();
    inputs(&mut walk, nk, d);
    crate::key::words(&mut walk, nk, d);
    with_keys(&mut walk, w, nk, d);
    lines::end(b"total ", walk.at);
    walk.at
}
