// The parts of a product's sheet: each is some bytes that the product's own routines left, put where their places are. Document 01, "Places in one
// product", decides.
//
// Kept: loops by a number where rows go side by side, or where a part of out is written. Of what chunks_exact_mut() or iter_mut() under zip() lent, a
// proof knows the length alone.
ghost use Rattle.std.specs.Prelude.{◌≡◌, ◌+◌, ◌*◌, ◌≤◌, length};
ghost use Rattle.xor.specs.Lists.{at};
ghost use Rattle.xor.specs.Running.{running};
ghost use Rattle.xor.specs.Writes.{front};
ghost use Rattle.masking.specs.Steps as Steps;
ghost use Rattle.masking.specs.Fits.{RowFits};
ghost use Rattle.sheet_parts.specs.Parts.{bytes_of, five_rows, row_bytes, starts_put, row_put, table_rows};

use crate::Pair;
use gf256::Tables;
use masking::rows::Rows;

// The five bytes of a pair, over the front of out. It is a call of its own in the built library too: inlined, the loop over pairs becomes one over
// vectors, in whose registers bytes of two places are ORed.
#[inline(never)]
fn put_pair(p: Pair, out: &mut [u8])
    requires { 5 ≤ length out.old }
    ensures { out.new ≡ front (bytes_of p) out.old }
{
    out[0] = p.drawn;
    out[1] = p.upper;
    out[2] = p.half;
    out[3] = p.lower;
    out[4] = p.back;
}

// The pairs of a row, whose bytes stand on the tape and at the fronts of the rows, over the front of out.
fn put_row(w: usize, tape: &[u8], rows: &Rows, out: &mut [u8])
    requires { (w ≤ 8) × (w ≤ length tape.now) × (5 * w ≤ length out.old) }
    ensures { out.new
        ≡ front (five_rows tape.now rows.now.upper rows.now.half rows.now.lower rows.now.back w)
        out.old }
{
    for m in 0..w {
        let p = Pair {
            drawn: tape[m],
            upper: rows.upper[m],
            half: rows.half[m],
            lower: rows.lower[m],
            back: rows.back[m],
        };
        put_pair(p, &mut out[5 * m..]);
    }
}

// The starts of the running sums of n shares, into column 0 of the table: that of share k after q of its terms stands at k * 9 + q.
pub fn put_starts(n: usize, sums: &[u8], table: &mut [u8])
    requires { (n ≤ 9) × (length sums.now ≡ n) × (length table.old ≡ 81) }
    ensures { table.new ≡ starts_put (at sums.now) table.old n }
{
    for (k, sum) in sums[..n].iter().enumerate() {
        table[k * 9] = *sum;
    }
}

// What a row of pairs made of the running sums, into the table: share i's own, one after each draw, and that of each share behind it.
fn put_sums(i: usize, w: usize, own: &[u8], sums: &[u8], table: &mut [u8])
    requires { (i + 1 + w ≤ 9) × (w ≤ length own.now) × (i + 1 + w ≤ length sums.now) × (length table.old ≡ 81) }
    ensures { table.new ≡ row_put i (at own.now) (at sums.now) table.old w }
{
    let next = i + 1;
    for m in 0..w {
        let j = next + m;
        table[i * 9 + j] = own[m];
        table[j * 9 + next] = sums[j];
    }
}

// Row i of the pairs, over the front of out, and what it made of the running sums, into the table. Answers with how many bytes were drawn.
pub fn sheet_row(
    tables: &Tables,
    i: usize,
    w: usize,
    a: &[u8],
    b: &[u8],
    tape: &[u8],
    sums: &mut [u8],
    table: &mut [u8],
    out: &mut [u8],
) -> usize
    requires { RowFits i w a.now b.now tape.now sums.old × (length table.old ≡ 81)
        × (5 * w ≤ length out.old) }
    ensures { (result ≡ w)
        × (out.new ≡ front (row_bytes a.now b.now tape.now i w) out.old)
        × (sums.new ≡ Steps.pairs_taken a.now b.now tape.now i w sums.old)
        × (table.new
        ≡ row_put i (λ m. running (at sums.old i) (at tape.now) (m + 1))
        (at sums.new) table.old w) }
{
    let mut rows = Rows::new();
    let drawn = rows.take(tables, i, w, a, b, tape, sums);
    put_row(w, tape, &rows, out);
    put_sums(i, w, &rows.own, sums, table);
    drawn
}

// The running sums of n shares, from the table, over the front of out.
pub fn put_table(n: usize, table: &[u8], out: &mut [u8])
    requires { (n ≤ 9) × (length table.now ≡ 81) × (n * n ≤ length out.old) }
    ensures { out.new ≡ front (table_rows n table.now n) out.old }
{
    for k in 0..n {
        shares::bytes::put(&table[k * 9..k * 9 + n], &mut out[k * n..]);
    }
}
