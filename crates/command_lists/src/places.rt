// The command `places`: the places of a product by number and name.
use crate::orders;
use command_line::stops::Stop;
use std::env::Env;

pub fn run<R: Env>(rt: &R) -> Result<(), Stop<'static>> {
    listing::places::print(orders::served_order(rt, 2)?, &[]);
    Ok(())
}
