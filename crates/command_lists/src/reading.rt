// The command `read`: the bytes at the places of a product that the arguments behind the tape name.
use crate::place_list;
use command_line::stops::Stop;
use std::env::Env;
use text::answers;
use text::answers::Table;

// The first argument that names a place.
const FIRST: usize = 6;

// The list is read with an output as long.
// Kept beside its twin for the cube: what they share is `place_list::read` and `print_call`, and the rest is the call.
pub fn run<R: Env>(
    rt: &R,
    order: usize,
    left: &[u8],
    right: &[u8],
    tape: &[u32],
) -> Result<(), Stop<'static>> {
    let mut room = place_list::buffer();
    let list = place_list::read(rt, FIRST, &mut room)?;
    answers::print_call(list.len(), Table::Document01, |output| {
        readings::read_places(order, left, right, tape, list, output)
    })?;
    Ok(())
}
