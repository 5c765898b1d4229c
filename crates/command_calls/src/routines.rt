// The routines of the library, each under its command.
ghost use Rattle.std.specs.Prelude.{◌≡◌, ◌≤◌};
ghost use Rattle.outcomes.specs.Outcome.{outcome};
ghost use Rattle.command_calls.specs.Called.{called};

use command_line::commands::Command;
use lengths::sizes;
use outcomes::{Answer, Order, Refusal};
use text::answers;
use text::answers::{Cause, Table};

// The output's length that a routine wants, on a first input of that length. Where the order is not served or the input does not fit, the call
// is refused for that before its output is looked at, and any length will do.
fn room(c: Command, order: usize, length: usize) -> usize
    ensures { result ≤ 2160 }
{
    let d = Order::new(order.min(8));
    let n = d.shares();
    match c {
        Command::Encrypt | Command::Decrypt | Command::EncryptPrepared => n * 16,
        Command::Prepare => match sizes::key_words(d, length) {
            Some(key) => sizes::prepared_length(key.nk, d),
            None => 0,
        },
        Command::Split => n * length.min(32),
        Command::Join => outcomes::asked::share_length(n, length).unwrap_or(0),
        _ => n,
    }
}

// The routine that a command names. Those that name none of these never come here.
// Kept: `run` takes every command, as it did, so the last arm stands.
fn call(
    c: Command,
    order: usize,
    first: &[u8],
    second: &[u8],
    tape: &[u32],
    output: &mut [u8],
) -> Answer
    ensures { outcome result output.new
        ≡ called c order first.now second.now tape.now output.old }
{
    match c {
        Command::Encrypt => aes::encrypt(order, first, second, tape, output),
        Command::Decrypt => aes::decrypt(order, first, second, tape, output),
        Command::Prepare => aes::prepare(order, first, tape, output),
        Command::EncryptPrepared => aes::encrypt_prepared(order, first, second, tape, output),
        Command::Split => shares::split(order, first, tape, output),
        Command::Join => shares::join(order, first, output),
        Command::Refresh => refresh::refresh(order, first, tape, output),
        Command::Product => masking::masked_product(order, first, second, tape, output),
        Command::Sbox => sbox::masked_box(order, first, tape, output),
        _ => Err(Refusal::Order),
    }
}

// Calls the routine on an output of the length that it wants.
pub fn run(
    c: Command,
    order: usize,
    first: &[u8],
    second: &[u8],
    tape: &[u32],
) -> Result<(), Cause> {
    let table = match c {
        Command::EncryptPrepared => Table::PreparedKeys,
        _ => Table::Document01,
    };
    answers::print_call(room(c, order, first.len()), table, |output| {
        call(c, order, first, second, tape, output)
    })
}
