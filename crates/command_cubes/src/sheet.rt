// The command `cube-sheet`: all places of the cube with their bytes.
use command_line::stops::Stop;
use text::answers;
use text::answers::Table;

// Kept: the command `sheet` has the same steps, with a size, a call and a listing of its own. A function that takes all three is no shorter.
pub fn run(order: usize, shares: &[u8], tape: &[u32]) -> Result<(), Stop<'static>> {
    let mut room = io::buffer();
    let sheet = &mut room[..cubes::cube::cube_size(order)];
    let answer = cubes::cube_sheet(order, shares, tape, sheet);
    let count = answers::counted(answer, Table::Document01)?;
    crate::names::print(order, sheet);
    answers::print_taken(count);
    Ok(())
}
