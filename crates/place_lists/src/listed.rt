// Reading listed places: the bytes of a sheet at the places that a list of 16-bit numbers names.
ghost use Rattle.std.specs.Prelude.{◌≡◌, true, [], length};
ghost use Rattle.isw.specs.Place as Place;
ghost use Rattle.outcomes.specs.Outcome.{outcome, answered};
ghost use Rattle.place_lists.specs.Listed as Listed;
ghost use Rattle.place_lists.specs.Listed.{listed_tests, listed_outcome};

use outcomes::{Answer, Count, Refusal};

// Whether each place of the list is below size.
fn all_below(size: usize, list: &[u16]) -> bool
    ensures { result ≡ Listed.all_below size list.now }
{
    list.iter().all(|p| usize::from(*p) < size)
}

// The tests that a reading has behind the sheet's, on numbers alone: 4, 6 and 7.
fn listed_answer(count: Count, order: usize, list: usize, output: usize, below: bool) -> Answer
    ensures { result ≡ answered (listed_tests order list output below) count }
{
    if output != list {
        return Err(Refusal::Output);
    }
    if order < list {
        return Err(Refusal::List);
    }
    if !below {
        return Err(Refusal::Place);
    }
    Ok(count)
}

// The bytes of the sheet at the places of the list.
fn pick_listed(sheet: &[u8], list: &[u16], output: &mut [u8])
    requires { (length output.old ≡ length list.now) × (Listed.all_below (length sheet.now) list.now ≡ true) }
    ensures { output.new ≡ Place.listed sheet.now list.now }
{
    // Kept: an index for output, as in `xor_into` of `shares`.
    for (k, p) in list.iter().enumerate() {
        output[k] = sheet[usize::from(*p)];
    }
}

// The reading of a sheet that is made, at a count that making it had. All entries are tested before the first byte is written.
pub fn read_listed(
    count: Count,
    order: usize,
    sheet: &[u8],
    list: &[u16],
    output: &mut [u8],
) -> Answer
    ensures { outcome result output.new
        ≡ listed_outcome [] (length sheet.now) count order sheet.now list.now output.old }
{
    let below = all_below(sheet.len(), list);
    let count = listed_answer(count, order, list.len(), output.len(), below)?;
    pick_listed(sheet, list, output);
    Ok(count)
}
