// Round keys in shares, prepared once, and encryption from them. Document 02, wish 1, decides.
ghost use Rattle.std.specs.Prelude.{◌≡◌};
ghost use Rattle.outcomes.specs.Outcome.{outcome};
ghost use Rattle.aes.specs.Calls.{prepare_outcome, encrypt_prepared_outcome};

use gf256::{Direction, Tables};
use lengths::sizes;
use outcomes::{Answer, Count, Order};

// The masked key expansion, once: round keys 0 to Nr of share 0, then those of share 1, and so on.
pub fn prepare(order: usize, key: &[u8], tape: &[u32], output: &mut [u8]) -> Answer
    ensures { outcome result output.new ≡ prepare_outcome order key.now tape.now output.old }
{
    lengths::answers::preparation_answer(order, key.len(), tape.len(), output.len())?;
    let d = Order::new(order);
    let size = sizes::key_words(d, key.len()).unwrap();
    let tables = Tables::new();
    Ok(Count {
        taken: schedule::expansion::expand_core(&tables, size.nk, d, key, tape, output),
    })
}

// An encryption from prepared keys: the rounds with whatever these hold as round keys.
pub fn encrypt_prepared(
    order: usize,
    prepared: &[u8],
    input: &[u8],
    tape: &[u32],
    output: &mut [u8],
) -> Answer
    ensures { outcome result output.new
        ≡ encrypt_prepared_outcome order prepared.now input.now tape.now output.old }
{
    lengths::answers::prepared_answer(
        order,
        prepared.len(),
        input.len(),
        tape.len(),
        output.len(),
    )?;
    let d = Order::new(order);
    let size = sizes::prepared_words(d, prepared.len()).unwrap();
    let tables = Tables::new();
    let taken = rounds::rounds::rounds_core(
        &tables,
        Direction::Forward,
        size.nk,
        d,
        prepared,
        input,
        tape,
        output,
    );
    Ok(Count { taken })
}
