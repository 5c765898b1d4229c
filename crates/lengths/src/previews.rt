// Asking beforehand: the answer that a call would give, from the order and the lengths of its buffers alone. Document 02, wish 4, decides.
// Any lengths may be asked about, up to the largest number there is.
// Kept: a routine for each call, though two answer alike: document 02 names them.
ghost use Rattle.std.specs.Prelude.{◌≡◌, []};
ghost use Rattle.outcomes.specs.Outcome.{outcome};
ghost use Rattle.lengths.specs.Previews.{encrypt_preview, decrypt_preview, prepare_preview, encrypt_prepared_preview};

use crate::answers;
use outcomes::Answer;

pub fn preview_encrypt(
    order: usize,
    key_len: usize,
    input_len: usize,
    tape_len: usize,
    output_len: usize,
) -> Answer
    ensures { outcome result [] ≡ encrypt_preview order key_len input_len tape_len output_len }
{
    answers::single_answer(order, key_len, input_len, tape_len, output_len)
}

pub fn preview_decrypt(
    order: usize,
    key_len: usize,
    input_len: usize,
    tape_len: usize,
    output_len: usize,
) -> Answer
    ensures { outcome result [] ≡ decrypt_preview order key_len input_len tape_len output_len }
{
    answers::single_answer(order, key_len, input_len, tape_len, output_len)
}

// It has no input, and so never answers Err(Refusal::Input).
pub fn preview_prepare(order: usize, key_len: usize, tape_len: usize, output_len: usize) -> Answer
    ensures { outcome result [] ≡ prepare_preview order key_len tape_len output_len }
{
    answers::preparation_answer(order, key_len, tape_len, output_len)
}

pub fn preview_encrypt_prepared(
    order: usize,
    prepared_len: usize,
    input_len: usize,
    tape_len: usize,
    output_len: usize,
) -> Answer
    ensures { outcome result [] ≡ encrypt_prepared_preview order prepared_len input_len tape_len output_len }
{
    answers::prepared_answer(order, prepared_len, input_len, tape_len, output_len)
}
