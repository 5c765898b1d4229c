// The sheet of a masked product: the byte at each of its places, in their order. No byte of it is computed here: each is one that the product's own
// routines left. Document 01, "Places in one product", decides.
ghost use Rattle.std.specs.Prelude.{◌≡◌, true, suc, ◌*◌, ◌≤◌, length};
ghost use Rattle.gf256.specs.Field as Field;
ghost use Rattle.isw.specs.Place as Place;
ghost use Rattle.outcomes.specs.Outcome as Outcome;
ghost use Rattle.tape_words.specs.Words.{bytes_of, words_for};
ghost use Rattle.outcomes.specs.Outcome.{outcome};
ghost use Rattle.xor.specs.Writes.{front};
ghost use Rattle.masking.specs.Fits.{FactorsFit};
ghost use Rattle.sheets.specs.Fits.{RoomFits};
ghost use Rattle.sheet_parts.specs.Parts.{pairs_before, sums_before, table_rows};
ghost use Rattle.sheets.specs.Calls.{sheet_outcome};

use gf256::Tables;
use outcomes::{Answer, Count, Order};

// P(d), how many places there are.
pub fn place_count(d: Order) -> usize
    ensures { (result ≡ Place.place_count d) × (result ≤ 279) }
{
    let n = d.shares();
    2 * n + 5 * masking::product::product_need(d) + n * n
}

// P(d) where d is an order that is served, and 0 where it is not.
// Kept: a number. The reading makes room by it before it asks for the sheet, whose refusal document 01 has it hand up.
pub fn sheet_size(order: usize) -> usize
    ensures { (Outcome.served order ≡ true → result ≡ Place.place_count order) × (result ≤ 279) }
{
    match Order::served(order) {
        Ok(d) => place_count(d),
        Err(_) => 0,
    }
}

// All pairs, over the front of out, and all running sums, into the table, with room for n sums. Answers with how many bytes were drawn.
fn sheet_rows(
    tables: &Tables,
    d: Order,
    a: &[u8],
    b: &[u8],
    tape: &[u8],
    sums: &mut [u8],
    table: &mut [u8],
    out: &mut [u8],
) -> usize
    requires { FactorsFit d a.now b.now tape.now × RoomFits d sums.old table.old
        × (5 * Place.product_need d ≤ length out.old) }
    ensures { (result ≡ Place.product_need d)
        × (out.new ≡ front (pairs_before (suc d) a.now b.now tape.now (suc d)) out.old)
        × (table_rows (suc d) table.new (suc d)
        ≡ sums_before (suc d) a.now b.now tape.now (suc d)) }
{
    let n = d.shares();
    masking::steps::start_sums(tables, n, a, b, sums);
    sheet_parts::parts::put_starts(n, sums, table);
    // Kept: the places on the tape and in out are counted. Row i has d - i pairs, so no chunks of one length are the rows.
    let mut drawn: usize = 0;
    let last = d.number();
    for i in 0..last {
        let at = 5 * drawn;
        drawn += sheet_parts::parts::sheet_row(
            tables,
            i,
            last - i,
            a,
            b,
            &tape[drawn..],
            sums,
            table,
            &mut out[at..],
        );
    }
    drawn
}

// The whole sheet, with room for n sums and a table. Answers with how many bytes were drawn.
fn sheet_with(
    tables: &Tables,
    d: Order,
    a: &[u8],
    b: &[u8],
    tape: &[u8],
    sums: &mut [u8],
    table: &mut [u8],
    out: &mut [u8],
) -> usize
    requires { FactorsFit d a.now b.now tape.now × RoomFits d sums.old table.old
        × (length out.old ≡ Place.place_count d) }
    ensures { (result ≡ Place.product_need d)
        × (out.new ≡ Place.sheet Field.times d a.now b.now tape.now) }
{
    let n = d.shares();
    shares::bytes::put(a, out);
    shares::bytes::put(b, &mut out[n..]);
    let pairs = 2 * n;
    let drawn = sheet_rows(tables, d, a, b, tape, sums, table, &mut out[pairs..]);
    let behind = pairs + 5 * drawn;
    sheet_parts::parts::put_table(n, table, &mut out[behind..]);
    drawn
}

// The whole sheet. Answers with how many bytes were drawn.
pub fn sheet_core(
    tables: &Tables,
    d: Order,
    a: &[u8],
    b: &[u8],
    tape: &[u8],
    out: &mut [u8],
) -> usize
    requires { FactorsFit d a.now b.now tape.now × (length out.old ≡ Place.place_count d) }
    ensures { (result ≡ Place.product_need d)
        × (out.new ≡ Place.sheet Field.times d a.now b.now tape.now) }
{
    let mut sums = [0u8; 9];
    let mut table = [0u8; 81];
    let n = d.shares();
    sheet_with(tables, d, a, b, tape, &mut sums[0..n], &mut table, out)
}

// The same on a tape of words. Answers with how many words were drawn.
fn sheet_on_words(
    tables: &Tables,
    d: Order,
    a: &[u8],
    b: &[u8],
    tape: &[u32],
    out: &mut [u8],
) -> usize
    requires { FactorsFit d a.now b.now (bytes_of tape.now) × (length out.old ≡ Place.place_count d) }
    ensures { (result ≡ words_for (Place.product_need d))
        × (out.new ≡ Place.sheet Field.times d a.now b.now (bytes_of tape.now)) }
{
    let mut drawn = [0u8; 36];
    tape_words::unpack(masking::product::product_need(d), tape, &mut drawn);
    tape_words::words_for(sheet_core(tables, d, a, b, &drawn, out))
}

pub fn product_sheet(
    order: usize,
    left: &[u8],
    right: &[u8],
    tape: &[u32],
    output: &mut [u8],
) -> Answer
    ensures { outcome result output.new
        ≡ sheet_outcome order left.now right.now tape.now output.old }
{
    masking::product::factors_answer(
        sheet_size(order),
        order,
        left.len(),
        right.len(),
        tape.len(),
        output.len(),
    )?;
    let d = Order::new(order);
    let tables = Tables::new();
    Ok(Count {
        taken: sheet_on_words(&tables, d, left, right, tape, output),
    })
}
