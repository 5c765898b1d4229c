// Reading places of the cube: the bytes of its sheet at the places that a list of 16-bit numbers names.
ghost use Rattle.std.specs.Prelude.{◌≡◌, true, length};
ghost use Rattle.outcomes.specs.Outcome.{outcome, served};
ghost use Rattle.gadgets.specs.Cube as Cube;
ghost use Rattle.cube_readings.specs.Calls.{cube_reading_outcome};

use outcomes::Answer;

// The reading, with room for the sheet, whose refusals 1, 3 and 5 are handed up.
// Kept: `let .. else` and no `?`, the form that document 01 names for it, in either reading; what they share is `read_listed`.
fn read_with(
    order: usize,
    input: &[u8],
    tape: &[u32],
    list: &[u16],
    sheet: &mut [u8],
    output: &mut [u8],
) -> Answer
    requires { served order ≡ true → length sheet.old ≡ Cube.cube_count order }
    ensures { outcome result output.new
        ≡ cube_reading_outcome order input.now tape.now list.now output.old }
{
    let made = cubes::cube_sheet(order, input, tape, sheet);
    let Ok(count) = made else {
        return made;
    };
    place_lists::read_listed(count, order, sheet, list, output)
}

pub fn read_cube_places(
    order: usize,
    input: &[u8],
    tape: &[u32],
    list: &[u16],
    output: &mut [u8],
) -> Answer
    ensures { outcome result output.new
        ≡ cube_reading_outcome order input.now tape.now list.now output.old }
{
    let mut sheet = [0u8; 396];
    let size = cubes::cube::cube_size(order);
    read_with(order, input, tape, list, &mut sheet[0..size], output)
}
