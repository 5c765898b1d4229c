// The command `sheet`: all places of a product with their bytes.
// Kept beside its twin for the cube: a function of a size, a call and a listing is no shorter than the two.
use command_line::stops::Stop;
use text::answers;
use text::answers::Table;

pub fn run(order: usize, left: &[u8], right: &[u8], tape: &[u32]) -> Result<(), Stop<'static>> {
    let mut room = io::buffer();
    let sheet = &mut room[..sheets::sheet::sheet_size(order)];
    let answer = sheets::product_sheet(order, left, right, tape, sheet);
    let count = answers::counted(answer, Table::Document01)?;
    listing::places::print(order, sheet);
    answers::print_taken(count);
    Ok(())
}
