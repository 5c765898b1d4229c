// The places of a refresh: each is a byte that the refresh's own routine left, put where its place is. No byte is computed here.
// Document 02, wish 8, decides.
// Kept: loops by a number. Of what chunks_exact_mut() lent, a proof knows the length alone; and each row draws a byte fewer than the one before, so
// no chunks of one length are the rows.
ghost use Rattle.std.specs.Prelude.{◌≡◌, [], ◌∷◌, ◌*◌, ◌≤◌, length};
ghost use Rattle.xor.specs.Lists.{at};
ghost use Rattle.xor.specs.Running.{row_taken};
ghost use Rattle.xor.specs.Writes.{front};
ghost use Rattle.refresh.specs.Refresh as Refresh;
ghost use Rattle.refresh.specs.Places.{refresh_sheet};
ghost use Rattle.refresh_sheets.specs.Fits.{ThreeFit, RowFits, RefreshFits};
ghost use Rattle.refresh_sheets.specs.Parts.{three_rows, row_sheet};

use outcomes::Order;

// Three bytes, over the front of out. It is a call of its own in the built library too: inlined, the loop over pairs becomes one over vectors, in
// whose registers bytes of two places are ORed.
#[inline(never)]
fn put_three(drawn: u8, first: u8, second: u8, out: &mut [u8])
    requires { 3 ≤ length out.old }
    ensures { out.new ≡ front (drawn ∷ first ∷ second ∷ []) out.old }
{
    out[0] = drawn;
    out[1] = first;
    out[2] = second;
}

// The pairs of row i with the w shares behind it, over the front of out: the drawn byte, share i as own has it, and the share behind it.
fn put_threes(i: usize, w: usize, tape: &[u8], own: &[u8], x: &[u8], out: &mut [u8])
    requires { ThreeFit i w tape.now own.now x.now out.old }
    ensures { out.new
        ≡ front (three_rows i tape.now own.now x.now w) out.old }
{
    for m in 0..w {
        put_three(tape[m], own[m], x[i + 1 + m], &mut out[3 * m..]);
    }
}

// Row i of the pairs as the refresh takes it into the shares, and its bytes over the front of out. Answers with how many bytes were drawn.
fn sheet_row(i: usize, w: usize, tape: &[u8], x: &mut [u8], out: &mut [u8]) -> usize
    requires { RowFits i w tape.now x.old out.old }
    ensures { (result ≡ w)
        × (x.new ≡ row_taken i w (at tape.now) (at tape.now) x.old)
        × (out.new ≡ front (row_sheet i w x.old tape.now) out.old) }
{
    let mut own = [0u8; 8];
    let drawn = refresh::refreshing::refresh_row(i, w, tape, &mut own, x);
    put_threes(i, w, tape, &own, x, out);
    drawn
}

// The refresh of the shares of a byte, and its bytes over the front of out. Answers with how many bytes were drawn.
pub fn refresh_shown(d: Order, tape: &[u8], x: &mut [u8], out: &mut [u8]) -> usize
    requires { RefreshFits d tape.now x.old out.old }
    ensures { (result ≡ Refresh.refresh_need d) × (x.new ≡ Refresh.refreshed d x.old tape.now)
        × (out.new ≡ front (refresh_sheet d x.old tape.now) out.old) }
{
    let mut drawn: usize = 0;
    let last = d.number();
    for i in 0..last {
        drawn += sheet_row(i, last - i, &tape[drawn..], x, &mut out[3 * drawn..]);
    }
    drawn
}
