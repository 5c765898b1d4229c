// The masked product, its sheet and the reading of places, for C.
ghost use Rattle.std.specs.Prelude.{◌≡◌};
ghost use Rattle.masking.specs.Calls.{product_outcome};
ghost use Rattle.sheets.specs.Calls.{sheet_outcome};
ghost use Rattle.readings.specs.Calls.{reading_outcome};
ghost use Rattle.dokkumel_c.specs.Returned.{gives, returned};

#[unsafe(no_mangle)]
pub extern "C" fn dokkumel_product(
    order: usize,
    left: &[u8],
    right: &[u8],
    tape: &[u32],
    output: &mut [u8],
    taken: &mut usize,
) -> u32
    ensures { gives result taken.new output.new
        ≡ returned (product_outcome order left.now right.now tape.now output.old) taken.old }
{
    let answer = masking::masked_product(order, left, right, tape, output);
    crate::status::returned(answer, taken)
}

#[unsafe(no_mangle)]
pub extern "C" fn dokkumel_product_sheet(
    order: usize,
    left: &[u8],
    right: &[u8],
    tape: &[u32],
    output: &mut [u8],
    taken: &mut usize,
) -> u32
    ensures { gives result taken.new output.new
        ≡ returned (sheet_outcome order left.now right.now tape.now output.old) taken.old }
{
    let answer = sheets::product_sheet(order, left, right, tape, output);
    crate::status::returned(answer, taken)
}

#[unsafe(no_mangle)]
pub extern "C" fn dokkumel_read_places(
    order: usize,
    left: &[u8],
    right: &[u8],
    tape: &[u32],
    list: &[u16],
    output: &mut [u8],
    taken: &mut usize,
) -> u32
    ensures { gives result taken.new output.new
        ≡ returned (reading_outcome order left.now right.now tape.now list.now
        output.old) taken.old }
{
    let answer = readings::read_places(order, left, right, tape, list, output);
    crate::status::returned(answer, taken)
}
