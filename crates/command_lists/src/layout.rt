// The command `tape`: which bytes and words of the tape go into which step of an encryption or decryption.
use crate::orders;
use command_line::stops::Stop;
use outcomes::Order;
use std::env::Env;

pub fn run<R: Env>(rt: &R) -> Result<(), Stop<'static>> {
    let (order, key) = orders::served_call(rt, 2)?;
    listing::tape::print(key, Order::new(order));
    Ok(())
}
