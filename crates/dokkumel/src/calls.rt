// Commands that call a routine: ORDER, one or two inputs, and a tape are read in turn, and the first that cannot be read ends the run.
use command_calls::routines;
use command_line::arguments;
use command_line::commands::Command;
use command_line::stops::Stop;
use command_lists::{reading, sheet};
use std::env::Env;

// The name of the first input, and of the second where there is one.
fn inputs(c: Command) -> (&'static [u8], Option<&'static [u8]>) {
    match c {
        Command::Encrypt | Command::Decrypt => (b"KEYSHARES", Some(b"INPUTSHARES")),
        Command::EncryptPrepared => (b"PREPARED", Some(b"INPUTSHARES")),
        Command::Prepare => (b"KEYSHARES", None),
        Command::Split => (b"INPUT", None),
        Command::Product | Command::Sheet | Command::Read => (b"LEFT", Some(b"RIGHT")),
        _ => (b"SHARES", None),
    }
}

fn run_on<R: Env>(
    rt: &R,
    c: Command,
    order: usize,
    first: &[u8],
    second: &[u8],
    tape: &[u32],
) -> Result<(), Stop<'static>> {
    match c {
        Command::Read => reading::run(rt, order, first, second, tape),
        Command::Sheet => sheet::run(order, first, second, tape),
        Command::ReadCube => command_cubes::reading::run(rt, order, first, tape),
        Command::CubeSheet => command_cubes::sheet::run(order, first, tape),
        _ => Ok(routines::run(c, order, first, second, tape)?),
    }
}

// The tape is argument i. Its room is made only here, behind all that may end the run before it.
fn with_inputs<R: Env + Input>(
    rt: &R,
    c: Command,
    order: usize,
    first: &[u8],
    second: &[u8],
    i: usize,
) -> Result<(), Stop<'static>> {
    let mut words = command_tape::buffer();
    let tape = command_tape::read(rt, i, &mut words)?;
    run_on(rt, c, order, first, second, tape)
}

// The second input has that name.
fn with_first<R: Env + Input>(
    rt: &R,
    c: Command,
    order: usize,
    first: &[u8],
    name: &'static [u8],
) -> Result<(), Stop<'static>> {
    let mut room = io::buffer();
    let second = arguments::bytes(rt, 4, name, &mut room)?;
    with_inputs(rt, c, order, first, second, 5)
}

// Joining draws nothing, and so has no tape.
pub fn run<R: Env + Input>(rt: &R, c: Command) -> Result<(), Stop<'static>> {
    let (first_name, second_name) = inputs(c);
    let order = arguments::number(rt, 2, b"ORDER")?;
    let mut room = io::buffer();
    let first = arguments::bytes(rt, 3, first_name, &mut room)?;
    match (c, second_name) {
        (Command::Join, _) => run_on(rt, c, order, first, &[], &[]),
        (_, Some(name)) => with_first(rt, c, order, first, name),
        (_, None) => with_inputs(rt, c, order, first, &[], 4),
    }
}
