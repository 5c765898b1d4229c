// ORDER and KEYBYTES, where the library serves them.
ghost use Rattle.std.specs.Prelude.{◌≡◌, ◌*◌, ◌≤◌, IfOk};

use command_line::arguments;
use command_line::stops::Stop;
use lengths::key::KeyWords;
use lengths::sizes;
use outcomes::{Order, Refusal};
use std::env::Env;
use text::answers::Cause;

fn served(order: usize) -> Result<usize, Cause>
    ensures { IfOk result (λ d. d ≤ 8) }
{
    Ok(Order::served(order)?.number())
}

// The size of a key of that many bytes.
fn key_words(size: usize) -> Result<KeyWords, Cause>
    ensures { IfOk result (λ key. 4 * key.nk ≡ size) }
{
    sizes::key_words(Order::new(0), size).ok_or(Cause::from(Refusal::Key))
}

// ORDER, argument i.
// Kept: a number, as the listings of a product and of the cube take it. Who needs an `Order` makes it of that.
pub fn served_order<R: Env>(rt: &R, i: usize) -> Result<usize, Stop<'static>>
    ensures { IfOk result (λ d. d ≤ 8) }
{
    Ok(served(arguments::number(rt, i, b"ORDER")?)?)
}

// ORDER, argument i, and the size of a key of KEYBYTES, the argument behind it. Both are read before either is looked at.
pub fn served_call<R: Env>(rt: &R, i: usize) -> Result<(usize, KeyWords), Stop<'static>>
    ensures { IfOk result (λ call. call.0 ≤ 8) }
{
    let order = arguments::number(rt, i, b"ORDER")?;
    let size = arguments::number(rt, i.wrapping_add(1), b"KEYBYTES")?;
    Ok((served(order)?, key_words(size)?))
}
