// The masked S-box, encryption and decryption, for C.
ghost use Rattle.std.specs.Prelude.{◌≡◌};
ghost use Rattle.sbox.specs.Calls.{box_outcome};
ghost use Rattle.aes.specs.Calls.{encrypt_outcome, decrypt_outcome};
ghost use Rattle.dokkumel_c.specs.Returned.{gives, returned};

#[unsafe(no_mangle)]
pub extern "C" fn dokkumel_sbox(
    order: usize,
    input: &[u8],
    tape: &[u32],
    output: &mut [u8],
    taken: &mut usize,
) -> u32
    ensures { gives result taken.new output.new
        ≡ returned (box_outcome order input.now tape.now output.old) taken.old }
{
    let answer = sbox::masked_box(order, input, tape, output);
    crate::status::returned(answer, taken)
}

#[unsafe(no_mangle)]
pub extern "C" fn dokkumel_encrypt(
    order: usize,
    key: &[u8],
    input: &[u8],
    tape: &[u32],
    output: &mut [u8],
    taken: &mut usize,
) -> u32
    ensures { gives result taken.new output.new
        ≡ returned (encrypt_outcome order key.now input.now tape.now output.old) taken.old }
{
    let answer = aes::encrypt(order, key, input, tape, output);
    crate::status::returned(answer, taken)
}

#[unsafe(no_mangle)]
pub extern "C" fn dokkumel_decrypt(
    order: usize,
    key: &[u8],
    input: &[u8],
    tape: &[u32],
    output: &mut [u8],
    taken: &mut usize,
) -> u32
    ensures { gives result taken.new output.new
        ≡ returned (decrypt_outcome order key.now input.now tape.now output.old) taken.old }
{
    let answer = aes::decrypt(order, key, input, tape, output);
    crate::status::returned(answer, taken)
}
