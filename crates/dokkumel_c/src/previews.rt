// Asking beforehand, for C: the status and the count that a call would give, from the order and the lengths of its buffers.
ghost use Rattle.std.specs.Prelude.{◌≡◌, []};
ghost use Rattle.lengths.specs.Previews.{encrypt_preview, decrypt_preview, prepare_preview, encrypt_prepared_preview};
ghost use Rattle.dokkumel_c.specs.Returned.{gives, returned};

#[unsafe(no_mangle)]
pub extern "C" fn dokkumel_preview_encrypt(
    order: usize,
    key_len: usize,
    input_len: usize,
    tape_len: usize,
    output_len: usize,
    taken: &mut usize,
) -> u32
    ensures { gives result taken.new [] ≡ returned (encrypt_preview order key_len input_len tape_len output_len) taken.old }
{
    let answer = lengths::preview_encrypt(order, key_len, input_len, tape_len, output_len);
    crate::status::returned(answer, taken)
}

#[unsafe(no_mangle)]
pub extern "C" fn dokkumel_preview_decrypt(
    order: usize,
    key_len: usize,
    input_len: usize,
    tape_len: usize,
    output_len: usize,
    taken: &mut usize,
) -> u32
    ensures { gives result taken.new [] ≡ returned (decrypt_preview order key_len input_len tape_len output_len) taken.old }
{
    let answer = lengths::preview_decrypt(order, key_len, input_len, tape_len, output_len);
    crate::status::returned(answer, taken)
}

#[unsafe(no_mangle)]
pub extern "C" fn dokkumel_preview_prepare(
    order: usize,
    key_len: usize,
    tape_len: usize,
    output_len: usize,
    taken: &mut usize,
) -> u32
    ensures { gives result taken.new [] ≡ returned (prepare_preview order key_len tape_len output_len) taken.old }
{
    let answer = lengths::preview_prepare(order, key_len, tape_len, output_len);
    crate::status::returned(answer, taken)
}

#[unsafe(no_mangle)]
pub extern "C" fn dokkumel_preview_encrypt_prepared(
    order: usize,
    prepared_len: usize,
    input_len: usize,
    tape_len: usize,
    output_len: usize,
    taken: &mut usize,
) -> u32
    ensures { gives result taken.new []
        ≡ returned (encrypt_prepared_preview order prepared_len input_len tape_len output_len) taken.old }
{
    let answer = lengths::preview_encrypt_prepared(
        order,
        prepared_len,
        input_len,
        tape_len,
        output_len,
    );
    crate::status::returned(answer, taken)
}
