// Round keys that are prepared once, and encryption from them, for C.
ghost use Rattle.std.specs.Prelude.{◌≡◌};
ghost use Rattle.aes.specs.Calls.{prepare_outcome, encrypt_prepared_outcome};
ghost use Rattle.dokkumel_c.specs.Returned.{gives, returned};

#[unsafe(no_mangle)]
pub extern "C" fn dokkumel_prepare(
    order: usize,
    key: &[u8],
    tape: &[u32],
    output: &mut [u8],
    taken: &mut usize,
) -> u32
    ensures { gives result taken.new output.new
        ≡ returned (prepare_outcome order key.now tape.now output.old) taken.old }
{
    let answer = aes::prepare(order, key, tape, output);
    crate::status::returned(answer, taken)
}

#[unsafe(no_mangle)]
pub extern "C" fn dokkumel_encrypt_prepared(
    order: usize,
    prepared: &[u8],
    input: &[u8],
    tape: &[u32],
    output: &mut [u8],
    taken: &mut usize,
) -> u32
    ensures { gives result taken.new output.new
        ≡ returned (encrypt_prepared_outcome order prepared.now input.now tape.now
        output.old) taken.old }
{
    let answer = aes::encrypt_prepared(order, prepared, input, tape, output);
    crate::status::returned(answer, taken)
}
