// Joining: the XOR of all shares of a string.
ghost use Rattle.std.specs.Prelude.{◌≡◌, suc, ◌*◌, ◌≤◌, length};
ghost use Rattle.xor.specs.Sums.{xors};
ghost use Rattle.outcomes.specs.Outcome.{outcome, answered, took};
ghost use Rattle.shares.specs.Strings.{joined_string, parts};
ghost use Rattle.shares.specs.Calls.{join_served, join_tests, join_outcome};

use outcomes::{Answer, Count, Order, Refusal, asked};

// The first d parts of bytes, each as long as x, XORed into x; answers with how many bytes that took.
pub fn xor_parts(d: usize, bytes: &[u8], x: &mut [u8]) -> usize
    requires { d * length x.old ≤ length bytes.now }
    ensures { (result ≡ d * length x.old)
        × (x.new ≡ xors x.old (joined_string (parts d (length x.old) bytes.now))) }
{
    let l = x.len();
    // Kept: the place is counted, since in a splitting it is the count of the tape's bytes, which document 01 has rise with each draw; and
    // chunks_exact() takes no length 0, which x may have.
    let mut at: usize = 0;
    for i in 0..d {
        let e = at + l;
        crate::bytes::xor_into(&bytes[at..e], x);
        at = e;
    }
    at
}

fn join_core(d: Order, l: usize, input: &[u8], output: &mut [u8])
    requires { (length output.old ≡ l) × (length input.now ≡ suc d * l) }
    ensures { output.new ≡ joined_string (parts (suc d) l input.now) }
{
    crate::bytes::put(&input[0..l], output);
    xor_parts(d.number(), &input[l..], output);
}

// The tests of a call behind that of its order, on the lengths of its buffers.
fn join_tested(d: Order, input: usize, output: usize) -> Answer
    ensures { result ≡ answered (join_served d input output) (took 0) }
{
    let l = asked::share_length(d.shares(), input).ok_or(Refusal::Input)?;
    if output != l {
        return Err(Refusal::Output);
    }
    Ok(Count { taken: 0 })
}

// The tests of a call, from the raw order, which is tested first.
fn join_answer(order: usize, input: usize, output: usize) -> Answer
    ensures { result ≡ answered (join_tests order input output) (took 0) }
{
    let d = Order::served(order)?;
    join_tested(d, input, output)
}

// The string that the shares join to. It draws nothing.
pub fn join(order: usize, input: &[u8], output: &mut [u8]) -> Answer
    ensures { outcome result output.new ≡ join_outcome order input.now output.old }
{
    join_answer(order, input.len(), output.len())?;
    let d = Order::new(order);
    join_core(d, output.len(), input, output);
    Ok(Count { taken: 0 })
}
