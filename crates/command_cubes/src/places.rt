// The command `cube-places`: the places of the cube by number and name.
use command_line::stops::Stop;
use command_lists::orders;
use std::env::Env;

pub fn run<R: Env>(rt: &R) -> Result<(), Stop<'static>> {
    crate::names::print(orders::served_order(rt, 2)?, &[]);
    Ok(())
}
