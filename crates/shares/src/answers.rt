// The tests of a call on the shares of one byte: those behind that of its order, and all. Document 01, "Turned-down calls", decides.
ghost use Rattle.std.specs.Prelude.{◌≡◌, suc, ◌*◌, ◌≤◌};
ghost use Rattle.xor.specs.Pairs.{pair_count};
ghost use Rattle.outcomes.specs.Outcome.{answered, took};
ghost use Rattle.tape_words.specs.Words.{words_for};
ghost use Rattle.shares.specs.Calls.{byte_tests, input_tests, input_served};

use outcomes::{Answer, Count, Order, Refusal};

// The tests of a call that draws so many bytes for each pair of the shares, and puts out so many bytes; on the lengths of its buffers.
pub fn input_tested(
    each: usize,
    room: usize,
    d: Order,
    input: usize,
    tape: usize,
    output: usize,
) -> Answer
    requires { each ≤ 6 }
    ensures { result ≡ answered (input_served room (words_for (each * pair_count (suc d))) d input tape output)
        (took (words_for (each * pair_count (suc d)))) }
{
    if input != d.shares() {
        return Err(Refusal::Input);
    }
    if output != room {
        return Err(Refusal::Output);
    }
    let need = tape_words::words_for(each * pairs::counting::pair_count(d));
    if tape < need {
        return Err(Refusal::Tape);
    }
    Ok(Count { taken: need })
}

// The same where it puts out shares of one byte: a refresh, which draws one byte for each pair, and an S-box, which draws six.
pub fn byte_tested(each: usize, d: Order, input: usize, tape: usize, output: usize) -> Answer
    requires { each ≤ 6 }
    ensures { result ≡ answered (input_served (suc d) (words_for (each * pair_count (suc d))) d input tape output)
        (took (words_for (each * pair_count (suc d)))) }
{
    input_tested(each, d.shares(), d, input, tape, output)
}

// The same from the raw order, which is tested first.
pub fn input_answer(
    each: usize,
    room: usize,
    order: usize,
    input: usize,
    tape: usize,
    output: usize,
) -> Answer
    requires { each ≤ 6 }
    ensures { result ≡ answered (input_tests room (words_for (each * pair_count (suc order))) order input tape output)
        (took (words_for (each * pair_count (suc order)))) }
{
    let d = Order::served(order)?;
    input_tested(each, room, d, input, tape, output)
}

pub fn byte_answer(each: usize, order: usize, input: usize, tape: usize, output: usize) -> Answer
    requires { each ≤ 6 }
    ensures { result ≡ answered (byte_tests (words_for (each * pair_count (suc order))) order input tape output)
        (took (words_for (each * pair_count (suc order)))) }
{
    let d = Order::served(order)?;
    byte_tested(each, d, input, tape, output)
}
