// The sheet of the cube and the reading of its places, for C.
ghost use Rattle.std.specs.Prelude.{◌≡◌};
ghost use Rattle.cubes.specs.Calls.{cube_sheet_outcome};
ghost use Rattle.cube_readings.specs.Calls.{cube_reading_outcome};
ghost use Rattle.dokkumel_c.specs.Returned.{gives, returned};

#[unsafe(no_mangle)]
pub extern "C" fn dokkumel_cube_sheet(
    order: usize,
    input: &[u8],
    tape: &[u32],
    output: &mut [u8],
    taken: &mut usize,
) -> u32
    ensures { gives result taken.new output.new
        ≡ returned (cube_sheet_outcome order input.now tape.now output.old) taken.old }
{
    let answer = cubes::cube_sheet(order, input, tape, output);
    crate::status::returned(answer, taken)
}

#[unsafe(no_mangle)]
pub extern "C" fn dokkumel_read_cube_places(
    order: usize,
    input: &[u8],
    tape: &[u32],
    list: &[u16],
    output: &mut [u8],
    taken: &mut usize,
) -> u32
    ensures { gives result taken.new output.new
        ≡ returned (cube_reading_outcome order input.now tape.now list.now output.old)
        taken.old }
{
    let answer = cube_readings::read_cube_places(order, input, tape, list, output);
    crate::status::returned(answer, taken)
}
