// The command line of the library, for the support desk and the laboratory: each routine on shares in hexadecimal, the sheets of a product and of
// the cube with the names of their places, the places of an S-box and of whole calls, and the steps that the bytes of a tape go into.
// `dokkumel help` lists the commands.
//
// A refused call prints `refused N: CAUSE` on standard output. A command line that cannot be read gets one line on standard error. The exit
// status is 0 in every case.
#![tactic(auto)]

mod calls;

use command_line::commands::Command;
use command_line::faults::Fault;
use command_line::stops::Stop;
use command_line::{arguments, help};
use command_lists::layout;
use command_places::places;
use command_previews::previews;
use std::env::Env;

fn run_command<R: Env + Input>(rt: &R, c: Command) -> Result<(), Stop<'static>> {
    match c {
        Command::Places => places::run(rt),
        Command::CubePlaces => command_cubes::places::run(rt),
        Command::Tape => layout::run(rt),
        Command::Preview => previews::run(rt),
        Command::Help => {
            help::print();
            Ok(())
        }
        _ => calls::run(rt, c),
    }
}

// A first argument that the room does not hold is read as empty, and names no command.
fn run<R: Env + Input>(rt: &R) -> Result<(), Stop<'static>> {
    let count = arguments::count(rt);
    if count < 2 {
        help::print();
        return Ok(());
    }
    let mut room = io::buffer();
    let c = Command::named(arguments::word(rt, 1, &mut room)).ok_or(Fault::UnknownCommand)?;
    c.is_whole(count)?;
    run_command(rt, c)
}

fn main(rt: HostRuntime) {
    if let Err(stop) = run(&rt) {
        stop.print();
    }
}
