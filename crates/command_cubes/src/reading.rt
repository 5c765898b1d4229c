// The command `read-cube`: the bytes at the places of the cube that the arguments behind the tape name.
use command_line::stops::Stop;
use command_lists::place_list;
use std::env::Env;
use text::answers;
use text::answers::Table;

// The first argument that names a place.
const FIRST: usize = 5;

// The list is read with an output as long. Kept beside its twin for a product, whose line says why.
pub fn run<R: Env>(rt: &R, order: usize, shares: &[u8], tape: &[u32]) -> Result<(), Stop<'static>> {
    let mut room = place_list::buffer();
    let list = place_list::read(rt, FIRST, &mut room)?;
    answers::print_call(list.len(), Table::Cube, |output| {
        cube_readings::read_cube_places(order, shares, tape, list, output)
    })?;
    Ok(())
}
