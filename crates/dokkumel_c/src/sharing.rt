// Splitting, joining and mask refresh, for C.
ghost use Rattle.std.specs.Prelude.{◌≡◌};
ghost use Rattle.shares.specs.Calls.{split_outcome, join_outcome};
ghost use Rattle.refresh.specs.Calls.{refresh_outcome};
ghost use Rattle.dokkumel_c.specs.Returned.{gives, returned};

#[unsafe(no_mangle)]
pub extern "C" fn dokkumel_split(
    order: usize,
    input: &[u8],
    tape: &[u32],
    output: &mut [u8],
    taken: &mut usize,
) -> u32
    ensures { gives result taken.new output.new
        ≡ returned (split_outcome order input.now tape.now output.old) taken.old }
{
    let answer = shares::split(order, input, tape, output);
    crate::status::returned(answer, taken)
}

#[unsafe(no_mangle)]
pub extern "C" fn dokkumel_join(
    order: usize,
    input: &[u8],
    output: &mut [u8],
    taken: &mut usize,
) -> u32
    ensures { gives result taken.new output.new
        ≡ returned (join_outcome order input.now output.old) taken.old }
{
    let answer = shares::join(order, input, output);
    crate::status::returned(answer, taken)
}

#[unsafe(no_mangle)]
pub extern "C" fn dokkumel_refresh(
    order: usize,
    input: &[u8],
    tape: &[u32],
    output: &mut [u8],
    taken: &mut usize,
) -> u32
    ensures { gives result taken.new output.new
        ≡ returned (refresh_outcome order input.now tape.now output.old) taken.old }
{
    let answer = refresh::refresh(order, input, tape, output);
    crate::status::returned(answer, taken)
}
