// The command `preview`: the answer that a call would give, from ORDER and the lengths of its buffers. They are read in turn, and the first that
// cannot be read ends the run.
ghost use Rattle.std.specs.Prelude.{◌≡◌, []};
ghost use Rattle.outcomes.specs.Outcome.{outcome};
ghost use Rattle.command_previews.specs.Previewed.{previewed};

use command_line::arguments;
use command_line::commands::{Command, has_words};
use command_line::faults::Fault;
use command_line::stops::Stop;
use outcomes::Answer;
use std::env::Env;
use text::answers;
use text::answers::Table;

// The calls that can be asked about.
#[derive(Clone, Copy)]
pub enum Route {
    Encrypt,
    Decrypt,
    Prepare,
    EncryptPrepared,
}

impl Route {
    fn named(word: &[u8]) -> Option<Route> {
        match Command::named(word)? {
            Command::Encrypt => Some(Route::Encrypt),
            Command::Decrypt => Some(Route::Decrypt),
            Command::Prepare => Some(Route::Prepare),
            Command::EncryptPrepared => Some(Route::EncryptPrepared),
            _ => None,
        }
    }

    // A preparation has no input.
    fn has_input(self) -> bool {
        match self {
            Route::Prepare => false,
            _ => true,
        }
    }

    // The name of the length of the key's shares, or of the prepared keys; and the words of a refusal.
    fn key(self) -> (&'static [u8], Table) {
        match self {
            Route::EncryptPrepared => (b"PREPAREDLEN", Table::PreparedKeys),
            _ => (b"KEYLEN", Table::Document01),
        }
    }
}

fn foretold(
    route: Route,
    order: usize,
    key: usize,
    input: usize,
    tape: usize,
    output: usize,
) -> Answer
    ensures { outcome result [] ≡ previewed route order key input tape output }
{
    match route {
        Route::Encrypt => lengths::preview_encrypt(order, key, input, tape, output),
        Route::Decrypt => lengths::preview_decrypt(order, key, input, tape, output),
        Route::Prepare => lengths::preview_prepare(order, key, tape, output),
        Route::EncryptPrepared => lengths::preview_encrypt_prepared(
            order, key, input, tape, output,
        ),
    }
}

// The lengths behind the key's begin with INPUTLEN, where the call has an input.
fn with_lengths<R: Env>(rt: &R, route: Route) -> Result<(), Stop<'static>> {
    let (name, table) = route.key();
    let order = arguments::number(rt, 3, b"ORDER")?;
    let key = arguments::number(rt, 4, name)?;
    let (input, behind) = if route.has_input() {
        (arguments::number(rt, 5, b"INPUTLEN")?, 6)
    } else {
        (0, 5)
    };
    let tape = arguments::number(rt, behind, b"TAPELEN")?;
    let output = arguments::number(rt, behind + 1, b"OUTPUTLEN")?;
    let count = answers::counted(foretold(route, order, key, input, tape, output), table)?;
    answers::print_taken(count);
    Ok(())
}

pub fn run<R: Env>(rt: &R) -> Result<(), Stop<'static>> {
    let mut room = io::buffer();
    let route = Route::named(arguments::word(rt, 2, &mut room)).ok_or(Fault::UnknownRoute)?;
    has_words(arguments::count(rt), if route.has_input() { 8 } else { 7 })?;
    with_lengths(rt, route)
}
