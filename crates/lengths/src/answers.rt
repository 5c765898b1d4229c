// The tests that decide a call's answer, on the order and the buffers' lengths alone: all of them (`.._answer`), and those behind the order's own
// (`.._tested`). The calls and their previews ask `.._answer`, so the order of the tests stands once. Document 01's table decides it; for prepared
// keys document 02, wish 1, and for previews wish 4.
// Lengths are any numbers: they are compared, and nothing is computed with them. The tape's is in words, and needs are rounded up to words here.
ghost use Rattle.std.specs.Prelude.{◌≡◌};
ghost use Rattle.outcomes.specs.Outcome.{answered, took};
ghost use Rattle.tape_words.specs.Words.{words_for};
ghost use Rattle.cipher.specs.Cipher.{schedule_need, encrypted_with_need, cipher_need};
ghost use Rattle.lengths.specs.Lengths.{key_words, prepared_words};
ghost use Rattle.lengths.specs.Previews.{block_tests, single_tests, preparation_tests, prepared_tests};
ghost use Rattle.lengths.specs.Previews.{single_served, preparation_served, prepared_served};

use crate::{needs, sizes};
use outcomes::{Answer, Count, Order, Refusal};

// The tests of a block that draws so many words, behind that of the key.
fn block_answer(need: usize, d: Order, input: usize, tape: usize, output: usize) -> Answer
    ensures { result ≡ answered (block_tests need d input tape output) (took need) }
{
    let size = d.shares() * 16;
    if input != size {
        return Err(Refusal::Input);
    }
    if output != size {
        return Err(Refusal::Output);
    }
    if tape < need {
        return Err(Refusal::Tape);
    }
    Ok(Count { taken: need })
}

// The tests of an encryption or decryption by a single call.
pub fn single_tested(d: Order, key: usize, input: usize, tape: usize, output: usize) -> Answer
    ensures { result ≡ answered (single_served d key input tape output) (took (words_for (cipher_need (key_words d key) d))) }
{
    let size = sizes::key_words(d, key).ok_or(Refusal::Key)?;
    let need = tape_words::words_for(needs::cipher_need(size, d));
    block_answer(need, d, input, tape, output)
}

// The tests of an encryption from prepared keys.
pub fn prepared_tested(
    d: Order,
    prepared: usize,
    input: usize,
    tape: usize,
    output: usize,
) -> Answer
    ensures { result
        ≡ answered (prepared_served d prepared input tape output)
        (took (words_for (encrypted_with_need (prepared_words d prepared) d))) }
{
    let size = sizes::prepared_words(d, prepared).ok_or(Refusal::Key)?;
    let need = tape_words::words_for(needs::encrypted_with_need(size, d));
    block_answer(need, d, input, tape, output)
}

// The tests of a preparation. It has no input.
pub fn preparation_tested(d: Order, key: usize, tape: usize, output: usize) -> Answer
    ensures { result ≡ answered (preparation_served d key tape output) (took (words_for (schedule_need (key_words d key) d))) }
{
    let size = sizes::key_words(d, key).ok_or(Refusal::Key)?;
    if output != sizes::prepared_length(size.nk, d) {
        return Err(Refusal::Output);
    }
    let words = tape_words::words_for(needs::schedule_need(size, d));
    if tape < words {
        return Err(Refusal::Tape);
    }
    Ok(Count { taken: words })
}

// The same three from the raw order, which is tested first.
pub fn single_answer(order: usize, key: usize, input: usize, tape: usize, output: usize) -> Answer
    ensures { result ≡ answered (single_tests order key input tape output) (took (words_for (cipher_need (key_words order key) order))) }
{
    let d = Order::served(order)?;
    single_tested(d, key, input, tape, output)
}

pub fn prepared_answer(
    order: usize,
    prepared: usize,
    input: usize,
    tape: usize,
    output: usize,
) -> Answer
    ensures { result
        ≡ answered (prepared_tests order prepared input tape output)
        (took (words_for (encrypted_with_need (prepared_words order prepared) order))) }
{
    let d = Order::served(order)?;
    prepared_tested(d, prepared, input, tape, output)
}

pub fn preparation_answer(order: usize, key: usize, tape: usize, output: usize) -> Answer
    ensures { result ≡ answered (preparation_tests order key tape output) (took (words_for (schedule_need (key_words order key) order))) }
{
    let d = Order::served(order)?;
    preparation_tested(d, key, tape, output)
}
