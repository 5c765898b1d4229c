// Mask refresh: one byte is drawn for each pair of shares, and XORed into both. Document 02, wish 7, decides.
ghost use Rattle.std.specs.Prelude.{◌≡◌, ◌≤◌, ◌<◌, length};
ghost use Rattle.xor.specs.Lists.{at};
ghost use Rattle.xor.specs.Running.{owns, row_taken};
ghost use Rattle.xor.specs.Writes.{front};
ghost use Rattle.pairs.specs.Fits.{SumsFit};
ghost use Rattle.outcomes.specs.Outcome.{outcome};
ghost use Rattle.tape_words.specs.Words.{bytes_of, words_for};
ghost use Rattle.refresh.specs.Refresh;
ghost use Rattle.refresh.specs.Calls.{refresh_outcome};

use outcomes::{Answer, Count, Order};

// How many bytes a refresh of order d draws.
pub fn refresh_need(d: Order) -> usize
    ensures { (result ≡ Refresh.refresh_need d) × (result ≤ 36) }
{
    pairs::counting::pair_count(d)
}

// The pairs of row i with the w shares behind it: each draw goes into share i, whose bytes on the way are left over the front of own, and into one of
// those behind it. The sheet of a refresh takes its bytes from here too. Answers with how many bytes were drawn.
pub fn refresh_row(i: usize, w: usize, tape: &[u8], own: &mut [u8], x: &mut [u8]) -> usize
    requires { SumsFit i w tape.now tape.now own.old x.old }
    ensures { (result ≡ w)
        × (own.new ≡ front (owns tape.now x.old i w) own.old)
        × (x.new ≡ row_taken i w (at tape.now) (at tape.now) x.old) }
{
    pairs::rows::sum_row(i, w, tape, tape, own, x)
}

// The refresh of the shares of a byte, row by row of the pairs. Answers with how many bytes were drawn.
pub fn refresh_core(d: Order, tape: &[u8], x: &mut [u8]) -> usize
    requires { (d < length x.old) × (Refresh.refresh_need d ≤ length tape.now) }
    ensures { (result ≡ Refresh.refresh_need d) × (x.new ≡ Refresh.refreshed d x.old tape.now) }
{
    let mut own = [0u8; 8];
    let mut drawn: usize = 0;
    // Kept: the place on the tape is counted. Each row draws a byte fewer than the one before, so no chunks of one length are the rows.
    let last = d.number();
    for i in 0..last {
        drawn += refresh_row(i, last - i, &tape[drawn..], &mut own, x);
    }
    drawn
}

// The same on a tape of words. Answers with how many words were drawn.
fn refresh_on_words(d: Order, tape: &[u32], x: &mut [u8]) -> usize
    requires { (d < length x.old) × (words_for (Refresh.refresh_need d) ≤ length tape.now) }
    ensures { (result ≡ words_for (Refresh.refresh_need d))
        × (x.new ≡ Refresh.refreshed d x.old (bytes_of tape.now)) }
{
    let mut drawn = [0u8; pairs::counting::MOST];
    tape_words::unpack(refresh_need(d), tape, &mut drawn);
    tape_words::words_for(refresh_core(d, &drawn, x))
}

pub fn refresh(order: usize, input: &[u8], tape: &[u32], output: &mut [u8]) -> Answer
    ensures { outcome result output.new
        ≡ refresh_outcome order input.now tape.now output.old }
{
    shares::answers::byte_answer(1, order, input.len(), tape.len(), output.len())?;
    let d = Order::new(order);
    shares::bytes::put(input, output);
    Ok(Count {
        taken: refresh_on_words(d, tape, output),
    })
}
