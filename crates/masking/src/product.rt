// The masked product of two bytes in shares: each share's running sum takes in its terms pair by pair, in the order of the draws.
// Document 01, "The steps over shares", decides.
ghost use Rattle.std.specs.Prelude.{◌≡◌, suc, ◌≤◌, length};
ghost use Rattle.gf256.specs.Field as Field;
ghost use Rattle.isw.specs.Place as Place;
ghost use Rattle.outcomes.specs.Outcome.{outcome, answered, took};
ghost use Rattle.tape_words.specs.Words.{bytes_of, words_for};
ghost use Rattle.masking.specs.Steps;
ghost use Rattle.masking.specs.Fits.{FactorsFit, RowFits};
ghost use Rattle.masking.specs.Calls.{two_fit, factor_tests, factor_served, product_outcome};

use crate::rows::Rows;
use gf256::Tables;
use outcomes::{Answer, Count, Order, Refusal};

// How many bytes a product of order d draws.
pub fn product_need(d: Order) -> usize
    ensures { (result ≡ Place.product_need d) × (result ≤ 36) }
{
    pairs::counting::pair_count(d)
}

// Whether both factors have n shares, by their lengths.
pub fn two_fit(d: Order, left: usize, right: usize) -> bool
    ensures { result ≡ two_fit d left right }
{
    let n = d.shares();
    if left == n {
        return right == n;
    }
    false
}

// The tests, behind that of its order, of a call on two factors with an output of room bytes; on the lengths of its buffers.
pub fn factors_tested(
    room: usize,
    d: Order,
    left: usize,
    right: usize,
    tape: usize,
    output: usize,
) -> Answer
    ensures { result ≡ answered (factor_served room d left right tape output) (took (words_for (Place.product_need d))) }
{
    if !two_fit(d, left, right) {
        return Err(Refusal::Input);
    }
    if output != room {
        return Err(Refusal::Output);
    }
    let need = tape_words::words_for(product_need(d));
    if tape < need {
        return Err(Refusal::Tape);
    }
    Ok(Count { taken: need })
}

// The same from the raw order, which is tested first.
pub fn factors_answer(
    room: usize,
    order: usize,
    left: usize,
    right: usize,
    tape: usize,
    output: usize,
) -> Answer
    ensures { result ≡ answered (factor_tests room order left right tape output) (took (words_for (Place.product_need order))) }
{
    let d = Order::served(order)?;
    factors_tested(room, d, left, right, tape, output)
}

// Row i of the pairs and its running sums, on rows of its own. Answers with how many bytes were drawn.
fn product_row(
    tables: &Tables,
    i: usize,
    w: usize,
    a: &[u8],
    b: &[u8],
    tape: &[u8],
    sums: &mut [u8],
) -> usize
    requires { RowFits i w a.now b.now tape.now sums.old }
    ensures { (result ≡ w)
        × (sums.new ≡ Steps.pairs_taken a.now b.now tape.now i w sums.old) }
{
    Rows::new().take(tables, i, w, a, b, tape, sums)
}

// All pairs, in the order of the draws, into the sums, which have their starts. Answers with how many bytes were drawn.
fn take_pairs(tables: &Tables, d: Order, a: &[u8], b: &[u8], tape: &[u8], sums: &mut [u8]) -> usize
    requires { FactorsFit d a.now b.now tape.now × (sums.old ≡ Steps.starts a.now b.now (suc d)) }
    ensures { (result ≡ Place.product_need d)
        × (sums.new ≡ Place.product Field.times d a.now b.now tape.now) }
{
    // Kept: the place on the tape is counted. Row i has d - i pairs, so no chunks of one length are the rows.
    let mut drawn: usize = 0;
    let last = d.number();
    for i in 0..last {
        drawn += product_row(tables, i, last - i, a, b, &tape[drawn..], sums);
    }
    drawn
}

// The product's shares. Answers with how many bytes were drawn.
pub fn product_core(
    tables: &Tables,
    d: Order,
    a: &[u8],
    b: &[u8],
    tape: &[u8],
    output: &mut [u8],
) -> usize
    requires { FactorsFit d a.now b.now tape.now × (length output.old ≡ suc d) }
    ensures { (result ≡ Place.product_need d)
        × (output.new ≡ Place.product Field.times d a.now b.now tape.now) }
{
    crate::steps::start_sums(tables, d.shares(), a, b, output);
    take_pairs(tables, d, a, b, tape, output)
}

// The same on a tape of words. Answers with how many words were drawn.
fn product_on_words(
    tables: &Tables,
    d: Order,
    a: &[u8],
    b: &[u8],
    tape: &[u32],
    output: &mut [u8],
) -> usize
    requires { FactorsFit d a.now b.now (bytes_of tape.now) × (length output.old ≡ suc d) }
    ensures { (result ≡ words_for (Place.product_need d))
        × (output.new ≡ Place.product Field.times d a.now b.now (bytes_of tape.now)) }
{
    let mut drawn = [0u8; pairs::counting::MOST];
    tape_words::unpack(product_need(d), tape, &mut drawn);
    tape_words::words_for(product_core(tables, d, a, b, &drawn, output))
}

pub fn masked_product(
    order: usize,
    left: &[u8],
    right: &[u8],
    tape: &[u32],
    output: &mut [u8],
) -> Answer
    ensures { outcome result output.new
        ≡ product_outcome order left.now right.now tape.now output.old }
{
    factors_answer(
        outcomes::asked::share_count(order),
        order,
        left.len(),
        right.len(),
        tape.len(),
        output.len(),
    )?;
    let d = Order::new(order);
    let tables = Tables::new();
    Ok(Count {
        taken: product_on_words(&tables, d, left, right, tape, output),
    })
}
