// The places of the key expansion.
ghost use Rattle.std.specs.Prelude.{◌≡◌, ◌+◌, ◌≤◌};
ghost use Rattle.cipher.specs.Fips197.{kind, turned};
ghost use Rattle.probing.specs.SchedulePlaces.{temp_count, word_count, schedule_count};
ghost use Rattle.call_listing.specs.Walk.{most};

use crate::{boxes, lines};
use listing::walk::Walk;
use outcomes::Order;

// The temporary word of a word that Rcon goes into.
#[tactic(auto, unfolding(probing::specs::SchedulePlaces::temp_count))]
fn turned_temp(walk: &mut Walk, d: Order, i: usize)
    requires { walk.old.at + temp_count d turned ≤ most }
    ensures { walk.new.at ≡ walk.old.at + temp_count d turned }
{
    boxes::of_word(walk, d, i);
    lines::string(walk, 4, d);
    lines::end(b"temporary word after Rcon, for key word ", i);
}

// The temporary word as word i wants it.
#[tactic(auto, using(crate::proofs::WalkLaws::temp_counts))]
fn temp(walk: &mut Walk, nk: usize, d: Order, i: usize)
    requires { (1 ≤ nk) × (walk.old.at + temp_count d (kind nk i) ≤ most) }
    ensures { walk.new.at ≡ walk.old.at + temp_count d (kind nk i) }
{
    match i % nk {
        0 => turned_temp(walk, d, i),
        4 if nk > 6 => boxes::of_word(walk, d, i),
        _ => {}
    }
}

#[tactic(auto, unfolding(probing::specs::SchedulePlaces::word_count))]
fn word(walk: &mut Walk, nk: usize, d: Order, i: usize)
    requires { (1 ≤ nk) × (walk.old.at + word_count nk d i ≤ most) }
    ensures { walk.new.at ≡ walk.old.at + word_count nk d i }
{
    temp(walk, nk, d, i);
    lines::string(walk, 4, d);
    lines::end(b"key word ", i);
}

// All words behind the key's own.
#[tactic(auto, using(crate::proofs::WalkLaws::schedule_counts))]
pub fn words(walk: &mut Walk, nk: usize, d: Order)
    requires { (1 ≤ nk) × (nk ≤ 8) × (walk.old.at + schedule_count nk d ≤ most) }
    ensures { walk.new.at ≡ walk.old.at + schedule_count nk d }
{
    for i in nk..4 * (nk + 7) {
        word(walk, nk, d, i);
    }
}
