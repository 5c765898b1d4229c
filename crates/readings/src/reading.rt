// Reading places: the bytes of a product's sheet at the places that a list of 16-bit numbers names.
ghost use Rattle.std.specs.Prelude.{◌≡◌, true, length};
ghost use Rattle.isw.specs.Place as Place;
ghost use Rattle.outcomes.specs.Outcome.{outcome, served};
ghost use Rattle.readings.specs.Calls.{reading_outcome};

use outcomes::Answer;

// The reading, with room for the sheet, whose refusals 1, 3 and 5 are handed up.
// Kept: `let .. else` and no `?`, the form that document 01 names for it, in either reading; what they share is `read_listed`.
fn read_with(
    order: usize,
    left: &[u8],
    right: &[u8],
    tape: &[u32],
    list: &[u16],
    sheet: &mut [u8],
    output: &mut [u8],
) -> Answer
    requires { served order ≡ true → length sheet.old ≡ Place.place_count order }
    ensures { outcome result output.new
        ≡ reading_outcome order left.now right.now tape.now list.now output.old }
{
    let made = sheets::product_sheet(order, left, right, tape, sheet);
    let Ok(count) = made else {
        return made;
    };
    place_lists::read_listed(count, order, sheet, list, output)
}

pub fn read_places(
    order: usize,
    left: &[u8],
    right: &[u8],
    tape: &[u32],
    list: &[u16],
    output: &mut [u8],
) -> Answer
    ensures { outcome result output.new
        ≡ reading_outcome order left.now right.now tape.now list.now output.old }
{
    let mut sheet = [0u8; 279];
    let size = sheets::sheet::sheet_size(order);
    read_with(order, left, right, tape, list, &mut sheet[0..size], output)
}
