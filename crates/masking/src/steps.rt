// The routines that every masked product and every sheet goes through, so that a sheet shows the very bytes that the product's own row leaves.
// Document 01, "The steps over shares", decides.
//
// Each XOR of a pair stands in a loop of its own, and what it gives goes through a lent row to the next: so no two of them meet in one expression,
// and a compiler has no brackets to move.
//
// THE RULE for whoever changes masked code:
// - no loop over shares has a constant bound, and no function is written for each order: an unrolled loop is one expression again;
// - no two XORs of one chain stand in one loop;
// - every row that carries a chain is read by a later loop;
// - a running sum is a scan: each sum is stored, and the last is read back at an index that is known only when it runs;
// - after any change, run tests/machine/run. It tests the built library: every byte that the machine holds is a function of one place.
//
// Kept: loops by a number where rows go side by side and one is written. Of a row that iter_mut() under zip() lent, a proof knows the length alone.
ghost use Rattle.std.specs.Prelude.{◌≡◌, ◌+◌, ◌≤◌, ◌<◌, length};
ghost use Rattle.std.specs.Int.Bits.{bit_xor};
ghost use Rattle.xor.specs.Lists.{at, tab};
ghost use Rattle.xor.specs.Running.{owns};
ghost use Rattle.isw.specs.Place as Place;
ghost use Rattle.xor.specs.Writes.{front};
ghost use Rattle.masking.specs.Steps;
ghost use Rattle.masking.specs.Fits.{RowFits, RowsFit, HalfFits};

use gf256::Tables;

// The start of each running sum: a_i · b_i.
pub fn start_sums(tables: &Tables, n: usize, a: &[u8], b: &[u8], output: &mut [u8])
    requires { (length output.old ≡ n) × (length a.now ≡ n) × (length b.now ≡ n) }
    ensures { output.new ≡ Steps.starts a.now b.now n }
{
    for (i, sum) in output.iter_mut().enumerate() {
        *sum = tables.times(a[i], b[i]);
    }
}

// The first half of the pairs of row i with the w shares behind it: draws r(i, j), and takes a_i · b_j into it. Answers with how many bytes
// were drawn.
fn half_row(
    tables: &Tables,
    i: usize,
    w: usize,
    a: &[u8],
    b: &[u8],
    tape: &[u8],
    upper: &mut [u8],
    half: &mut [u8],
) -> usize
    requires { HalfFits i w a.now b.now tape.now upper.old half.old }
    ensures { (result ≡ w)
        × (upper.new ≡ front (tab (Steps.uppers a.now b.now i) w) upper.old)
        × (half.new ≡ front (tab (Steps.halves a.now b.now tape.now i) w) half.old) }
{
    let ai = a[i];
    // The count rises with each draw, as document 01 has it.
    let mut drawn: usize = 0;
    for (m, r) in tape[..w].iter().enumerate() {
        drawn += 1;
        let c = tables.times(ai, b[i + 1 + m]);
        upper[m] = c;
        half[m] = *r ^ c;
    }
    drawn
}

// Their second half: r(j, i) is what the first half left XOR a_j · b_i.
fn back_row(
    tables: &Tables,
    i: usize,
    w: usize,
    a: &[u8],
    b: &[u8],
    half: &[u8],
    lower: &mut [u8],
    back: &mut [u8],
)
    requires { HalfFits i w a.now b.now half.now lower.old back.old }
    ensures { (lower.new ≡ front (tab (Steps.lowers a.now b.now i) w) lower.old)
        × (back.new
        ≡ front (tab (λ m. bit_xor (at half.now m) (Steps.lowers a.now b.now i m)) w)
        back.old) }
{
    let bi = b[i];
    for m in 0..w {
        let c = tables.times(a[i + 1 + m], bi);
        lower[m] = c;
        back[m] = half[m] ^ c;
    }
}

// The pairs of row i with the w shares behind it, whose draws stand at the front of the tape, and then its running sums. The bytes of each pair are
// left over the fronts of four rows: a_i · b_j, the product above the diagonal; r(i, j) XOR a_i · b_j; a_j · b_i, the one below it; and r(j, i).
// Answers with how many bytes were drawn.
// Kept: rows one by one. Its contract takes them at any length that suffices, which may not change; `Rows` (rows.rt) lends its own.
pub fn take_row(
    tables: &Tables,
    i: usize,
    w: usize,
    a: &[u8],
    b: &[u8],
    tape: &[u8],
    upper: &mut [u8],
    half: &mut [u8],
    lower: &mut [u8],
    back: &mut [u8],
    own: &mut [u8],
    sums: &mut [u8],
) -> usize
    requires { RowFits i w a.now b.now tape.now sums.old × RowsFit w upper.old half.old lower.old back.old
        × (w ≤ length own.old) }
    ensures { (result ≡ w)
        × (upper.new ≡ front (tab (Steps.uppers a.now b.now i) w) upper.old)
        × (half.new ≡ front (tab (Steps.halves a.now b.now tape.now i) w) half.old)
        × (lower.new ≡ front (tab (Steps.lowers a.now b.now i) w) lower.old)
        × (back.new ≡ front (tab (Steps.backs a.now b.now tape.now i) w) back.old)
        × (own.new ≡ front (owns tape.now sums.old i w) own.old)
        × (sums.new ≡ Steps.pairs_taken a.now b.now tape.now i w sums.old) }
{
    let drawn = half_row(tables, i, w, a, b, tape, upper, half);
    back_row(tables, i, w, a, b, half, lower, back);
    pairs::rows::sum_row(i, w, tape, back, own, sums);
    drawn
}

// The k-th j that is not i.
pub fn skip(i: usize, k: usize) -> usize
    requires { k < 9 }
    ensures { (result ≡ Place.skip i k) × (result ≤ k + 1) }
{
    if k < i { k } else { k + 1 }
}
