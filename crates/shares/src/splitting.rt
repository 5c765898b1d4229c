// Splitting: a string becomes n shares that join to it.
ghost use Rattle.std.specs.Prelude.{◌≡◌, suc, ◌*◌, ◌≤◌, length};
ghost use Rattle.xor.specs.Sums.{xors};
ghost use Rattle.xor.specs.Writes.{front};
ghost use Rattle.outcomes.specs.Outcome.{outcome, answered, took, share_length};
ghost use Rattle.tape_words.specs.Words.{bytes_of, words_for};
ghost use Rattle.shares.specs.Strings.{joined_string, parts, laid, split, split_need};
ghost use Rattle.shares.specs.Fits.{SplitFits};
ghost use Rattle.shares.specs.Calls.{split_served, split_tests, split_outcome};

use outcomes::{Answer, Count, Order, Refusal, asked};

// Share 0 over the front of out: the input with the first d parts of the tape XORed in. Answers with how many bytes were drawn.
fn first_share(d: Order, input: &[u8], tape: &[u8], out: &mut [u8]) -> usize
    requires { (d * length input.now ≤ length tape.now) × (length input.now ≤ length out.old) }
    ensures { (result ≡ d * length input.now)
        × (out.new
        ≡ front (xors input.now (joined_string (parts d (length input.now) tape.now))) out.old) }
{
    let l = input.len();
    crate::bytes::put(input, out);
    crate::joining::xor_parts(d.number(), tape, &mut out[0..l])
}

// Share 0, and behind it the drawn bytes as shares 1 to d. Answers with how many bytes were drawn.
fn split_core(d: Order, input: &[u8], tape: &[u8], output: &mut [u8]) -> usize
    requires { (d * length input.now ≤ length tape.now) × (length output.old ≡ suc d * length input.now) }
    ensures { (result ≡ d * length input.now)
        × (output.new ≡ laid (split d input.now tape.now)) }
{
    let l = input.len();
    let drawn = first_share(d, input, tape, output);
    crate::bytes::put(&tape[0..drawn], &mut output[l..]);
    drawn
}

// The tests of a call behind that of its order, on the lengths of its buffers.
fn split_tested(d: Order, input: usize, tape: usize, output: usize) -> Answer
    ensures { result ≡ answered (split_served d input tape output) (took (words_for (split_need d (share_length 1 input)))) }
{
    let l = asked::share_length(1, input).ok_or(Refusal::Input)?;
    if output != d.shares() * l {
        return Err(Refusal::Output);
    }
    let need = tape_words::words_for(d.number() * l);
    if tape < need {
        return Err(Refusal::Tape);
    }
    Ok(Count { taken: need })
}

// The tests of a call, from the raw order, which is tested first.
fn split_answer(order: usize, input: usize, tape: usize, output: usize) -> Answer
    ensures { result ≡ answered (split_tests order input tape output) (took (words_for (split_need order (share_length 1 input)))) }
{
    let d = Order::served(order)?;
    split_tested(d, input, tape, output)
}

// `split_core` on a tape of words: at most 8 masks of 32 bytes. Answers with how many words were drawn.
fn split_on_words(d: Order, input: &[u8], tape: &[u32], output: &mut [u8]) -> usize
    requires { SplitFits d input.now tape.now output.old }
    ensures { (result ≡ words_for (d * length input.now))
        × (output.new ≡ laid (split d input.now (bytes_of tape.now))) }
{
    let mut drawn = [0u8; 256];
    tape_words::unpack(d.number() * input.len(), tape, &mut drawn);
    tape_words::words_for(split_core(d, input, &drawn, output))
}

pub fn split(order: usize, input: &[u8], tape: &[u32], output: &mut [u8]) -> Answer
    ensures { outcome result output.new
        ≡ split_outcome order input.now tape.now output.old }
{
    split_answer(order, input.len(), tape.len(), output.len())?;
    let d = Order::new(order);
    Ok(Count {
        taken: split_on_words(d, input, tape, output),
    })
}
