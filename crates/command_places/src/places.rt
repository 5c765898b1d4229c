// The command `places`: the places of a product, of an S-box, or of a whole call.
use command_line::arguments;
use command_line::commands::has_words;
use command_line::stops::Stop;
use command_lists::orders;
use gf256::Direction;
use outcomes::Order;
use std::env::Env;

fn of_product<R: Env>(rt: &R) -> Result<(), Stop<'static>> {
    has_words(arguments::count(rt), 3)?;
    command_lists::places::run(rt)
}

fn of_box<R: Env>(rt: &R, w: Direction) -> Result<(), Stop<'static>> {
    has_words(arguments::count(rt), 4)?;
    let order = orders::served_order(rt, 3)?;
    box_listing::boxes::print(w, Order::new(order));
    Ok(())
}

fn of_call<R: Env>(rt: &R, w: Direction) -> Result<(), Stop<'static>> {
    has_words(arguments::count(rt), 5)?;
    let (order, key) = orders::served_call(rt, 3)?;
    call_listing::call::print(w, key, Order::new(order));
    Ok(())
}

// A first argument that the room does not hold is read as empty, and names none of the forms.
pub fn run<R: Env>(rt: &R) -> Result<(), Stop<'static>> {
    let mut room = io::buffer();
    match arguments::word(rt, 2, &mut room) {
        b"box" => of_box(rt, Direction::Forward),
        b"inverse-box" => of_box(rt, Direction::Inverse),
        b"encryption" => of_call(rt, Direction::Forward),
        b"decryption" => of_call(rt, Direction::Inverse),
        _ => of_product(rt),
    }
}
