// Power 254 over shares, by document 01's chain: z = x²; refresh z; y = z·x; w = y⁴; refresh w; v = y·w; v¹⁶; v¹⁶·w; times z.
// Each step gets the part of the tape from its first draw on, and the count rises by what it drew.
ghost use Rattle.std.specs.Prelude.{◌≡◌, map, ◌+◌, length, drop};
ghost use Rattle.gf256.specs.Exponents.{raised_to};
ghost use Rattle.isw.specs.Place as Place;
ghost use Rattle.refresh.specs.Refresh as Refresh;
ghost use Rattle.power254.specs.Power254;
ghost use Rattle.power254.specs.Fits.{RefreshedFits, FirstFits, LastFits, LaterFits, PowerFits};

use gf256::{Exponent, Tables};
use outcomes::Order;

// Each share of x to the power that is named, into z. The sheet of the cube takes its squares from here too.
pub fn raise(tables: &Tables, which: Exponent, x: &[u8], z: &mut [u8])
    requires { (length z.old ≡ length x.now) }
    ensures { z.new ≡ map (raised_to which) x.now }
{
    // Kept: an index for z, as in `xor_into` of `shares`.
    for (k, byte) in x.iter().enumerate() {
        z[k] = tables.raised(which, *byte);
    }
}

// The same, refreshed. Answers with how many bytes were drawn.
fn raise_refreshed(
    tables: &Tables,
    which: Exponent,
    d: Order,
    x: &[u8],
    tape: &[u8],
    z: &mut [u8],
) -> usize
    requires { RefreshedFits d x.now tape.now z.old }
    ensures { (result ≡ Refresh.refresh_need d)
        × (z.new ≡ Refresh.refreshed d (map (raised_to which) x.now) tape.now) }
{
    raise(tables, which, x, z);
    refresh::refreshing::refresh_core(d, tape, z)
}

// The first stage: z = x², refreshed, and y = z·x. Answers with how many bytes were drawn.
fn first_stage(
    tables: &Tables,
    d: Order,
    x: &[u8],
    tape: &[u8],
    z: &mut [u8],
    y: &mut [u8],
) -> usize
    requires { FirstFits d x.now tape.now z.old y.old }
    ensures { (result ≡ Power254.stage_need d) × (z.new ≡ Power254.stage_z d x.now tape.now)
        × (y.new ≡ Power254.stage_y d x.now tape.now) }
{
    let drawn = raise_refreshed(tables, Exponent::Two, d, x, tape, z);
    drawn + masking::product::product_core(tables, d, z, x, &tape[drawn..], y)
}

// The last stage: v = y·w; v¹⁶ into the output; v¹⁶·w back into v; and that times z. Answers with how many bytes were drawn.
fn last_stage(
    tables: &Tables,
    d: Order,
    y: &[u8],
    w: &[u8],
    z: &[u8],
    tape: &[u8],
    output: &mut [u8],
) -> usize
    requires { LastFits d y.now w.now z.now tape.now output.old }
    ensures { (result ≡ Place.product_need d + (Place.product_need d + Place.product_need d))
        × (output.new ≡ Power254.stage_last d (Power254.masked_product d y.now w.now tape.now)
        w.now z.now (drop (Place.product_need d) tape.now)) }
{
    let mut room = [0u8; 9];
    let n = d.shares();
    let v = &mut room[0..n];
    let first = masking::product::product_core(tables, d, y, w, tape, v);
    raise(tables, Exponent::Sixteen, v, output);
    let second = first + masking::product::product_core(tables, d, output, w, &tape[first..], v);
    second + masking::product::product_core(tables, d, v, z, &tape[second..], output)
}

// The second stage, w = y⁴, refreshed, and the last. Answers with how many bytes were drawn.
fn later_stages(
    tables: &Tables,
    d: Order,
    z: &[u8],
    y: &[u8],
    tape: &[u8],
    output: &mut [u8],
) -> usize
    requires { LaterFits d z.now y.now tape.now output.old }
    ensures { (result ≡ Refresh.refresh_need d + (Place.product_need d + (Place.product_need d + Place.product_need d)))
        × (output.new ≡ Power254.stage_last d (Power254.stage_v d y.now tape.now)
        (Power254.stage_w d y.now tape.now) z.now (drop (Power254.stage_need d) tape.now)) }
{
    let mut room = [0u8; 9];
    let n = d.shares();
    let w = &mut room[0..n];
    let drawn = raise_refreshed(tables, Exponent::Four, d, y, tape, w);
    drawn + last_stage(tables, d, y, w, z, &tape[drawn..], output)
}

// Power 254 of the shares of a byte, in place. Answers with how many bytes were drawn. The tape's slice is copied before anything is written: the
// compiler then hands it over in registers.
pub fn power_core(tables: &Tables, d: Order, tape: &[u8], x: &mut [u8]) -> usize
    requires { PowerFits d x.old tape.now }
    ensures { (result ≡ Power254.power_need d) × (x.new ≡ Power254.power_254 d x.old tape.now) }
{
    let mut squares = [0u8; 9];
    let mut cubes = [0u8; 9];
    let n = d.shares();
    let t = &tape[..];
    let z = &mut squares[0..n];
    let y = &mut cubes[0..n];
    let drawn = first_stage(tables, d, x, t, z, y);
    drawn + later_stages(tables, d, z, y, &t[drawn..], x)
}
