// The linear steps of FIPS 197 and their inverses, share by share.
ghost use Rattle.std.specs.Prelude.{◌≡◌, map, suc, ◌+◌, ◌*◌, ◌≤◌, length};
ghost use Rattle.shares.specs.Strings.{parts, laid};
ghost use Rattle.cipher.specs.Fips197 as Fips197;
ghost use Rattle.cipher.specs.States.{adds};
ghost use Rattle.cipher.specs.Cipher.{round_keys};
ghost use Rattle.linear.specs.Steps.{stepped, turn_of};
ghost use Rattle.linear.specs.declared.Step.TheVariants.{ShiftRows, MixColumns};

use crate::Step;
use buffers::each::each_share;
use gf256::Direction;
use outcomes::Order;
use shares::bytes::xor_into;

// How many columns to the left row r goes.
fn turn(which: Direction, r: usize) -> usize
    requires { r ≤ 4 }
    ensures { (result ≡ turn_of which r) × (result ≤ 4) }
{
    match which {
        Direction::Forward => r,
        Direction::Inverse => 4 - r,
    }
}

// ShiftRows or InvShiftRows of a state t into s.
fn shift_rows(which: Direction, t: &[u8], s: &mut [u8])
    requires { (length t.now ≡ 16) × (length s.old ≡ 16) }
    ensures { s.new ≡ stepped ShiftRows which t.now }
{
    for (k, byte) in s.iter_mut().enumerate() {
        let r = k % 4;
        let c = k / 4 + turn(which, r);
        *byte = t[r + 4 * (c % 4)];
    }
}

// MixColumns or InvMixColumns of a state t into s.
fn mix_columns(which: Direction, t: &[u8], s: &mut [u8])
    requires { (length t.now ≡ 16) × (length s.old ≡ 16) }
    ensures { s.new ≡ stepped MixColumns which t.now }
{
    for (k, byte) in s.iter_mut().enumerate() {
        let r = k % 4;
        let c = 4 * (k / 4);
        *byte = byte_maps::mixed_of(
            which,
            t[c + r],
            t[c + (r + 1) % 4],
            t[c + (r + 2) % 4],
            t[c + (r + 3) % 4],
        );
    }
}

// The step that is named, of a state t into s.
fn make_step(step: Step, which: Direction, t: &[u8], s: &mut [u8])
    requires { (length t.now ≡ 16) × (length s.old ≡ 16) }
    ensures { s.new ≡ stepped step which t.now }
{
    match step {
        Step::ShiftRows => shift_rows(which, t, s),
        Step::MixColumns => mix_columns(which, t, s),
    }
}

// The step that is named, of the state s of one share.
fn step_share(step: Step, which: Direction, s: &mut [u8])
    requires { length s.old ≡ 16 }
    ensures { s.new ≡ stepped step which s.old }
{
    let mut t = [0u8; 16];
    shares::bytes::put(s, &mut t);
    make_step(step, which, &t, s);
}

// The step that is named, on each share.
pub fn step_all(step: Step, which: Direction, d: Order, s: &mut [u8])
    requires { length s.old ≡ suc d * 16 }
    ensures { s.new ≡ laid (map (stepped step which) (parts (suc d) 16 s.old)) }
{
    each_share(d, 16, s, |_, share| step_share(step, which, share));
}

// Round key r into each share; the keys have m bytes in each share.
pub fn add_key(d: Order, m: usize, r: usize, keys: &[u8], s: &mut [u8])
    requires { (16 * r + 16 ≤ m) × (length keys.now ≡ suc d * m) × (length s.old ≡ suc d * 16) }
    ensures { s.new
        ≡ laid (adds (parts (suc d) 16 s.old) (round_keys (parts (suc d) m keys.now) r)) }
{
    each_share(d, 16, s, |i, share| {
        let b = i * m + 16 * r;
        xor_into(&keys[b..b + 16], share);
    });
}

// RotWord of each share.
pub fn rot_all(d: Order, s: &mut [u8])
    requires { length s.old ≡ suc d * 4 }
    ensures { s.new ≡ laid (map Fips197.rot_word (parts (suc d) 4 s.old)) }
{
    each_share(d, 4, s, |_, word| word.rotate_left(1));
}
