// Arguments of the command line, read as numbers and as bytes. What is read of one stands at the front of a room that the caller lends, and is handed
// back as that part.
ghost use Rattle.std.specs.Prelude.{◌≡◌, ◌≤◌, length, IfOk};
ghost use Rattle.text.specs.Hexadecimal as Hexadecimal;
ghost use Rattle.command_line.specs.Filled.{Whole, Filled};

use crate::faults::Fault;
use std::env::{Env, FillError};
use text::{decimal, hexadecimal};

// Room for the digits of 65,536 bytes.
pub fn wide_buffer() -> [u8; 131072]
    ensures { 131072 ≡ length result }
{
    [0; 131072]
}

// Argument i. One that is missing, or longer than the room, is read as empty.
pub fn word<'a, R: Env>(rt: &R, i: usize, room: &'a mut [u8]) -> &'a [u8]
    ensures { length result.now ≤ length room.old }
{
    match rt.arg(i, room) {
        Ok(n) => &room[..n],
        Err(_) => &[],
    }
}

// How many arguments there are, the program's name among them.
pub fn count<R: Env>(rt: &R) -> usize {
    let mut text = [0u8; 1];
    for i in 0..usize::MAX {
        if let Err(FillError::NotPresent) = rt.arg(i, &mut text) {
            return i;
        }
    }
    usize::MAX
}

// Argument i as a number.
pub fn number<'n, R: Env>(rt: &R, i: usize, name: &'n [u8]) -> Result<usize, Fault<'n>> {
    let mut room = io::buffer();
    decimal::read(word(rt, i, &mut room)).ok_or(Fault::NotDecimal(name))
}

// Argument i as hexadecimal digits.
pub fn digits<'a, 'n, R: Env>(
    rt: &R,
    i: usize,
    name: &'n [u8],
    room: &'a mut [u8],
) -> Result<&'a [u8], Fault<'n>>
    ensures { IfOk result (λ text. length text.now ≤ length room.old) }
{
    let Ok(n) = rt.arg(i, room) else {
        return Err(Fault::Long(name, room.len(), 1));
    };
    let text = &room[..n];
    if !hexadecimal::are_digits(text) {
        return Err(Fault::NotHexadecimal(name));
    }
    Ok(text)
}

// How many entries something of that size has, so many characters each: it is a whole number, for which there is room.
pub fn counted<'n>(
    size: usize,
    each: usize,
    room: usize,
    name: &'n [u8],
) -> Result<usize, Fault<'n>>
    requires { 1 ≤ each }
    ensures { IfOk result (λ count. Whole size each room count) }
{
    if size % each != 0 {
        return Err(Fault::Ragged(name, each));
    }
    if room < size / each {
        return Err(Fault::Long(name, room, each));
    }
    Ok(size / each)
}

// The bytes that text is in hexadecimal, at the front of out.
fn decoded<'n>(text: &[u8], name: &'n [u8], out: &mut [u8]) -> Result<usize, Fault<'n>>
    ensures { Filled (Hexadecimal.bytes text.now) (length text.now) 2 out.old out.new result }
{
    let n = counted(text.len(), 2, out.len(), name)?;
    hexadecimal::fill(text, &mut out[..n]);
    Ok(n)
}

// Argument i as bytes.
pub fn bytes<'a, 'n, R: Env>(
    rt: &R,
    i: usize,
    name: &'n [u8],
    room: &'a mut [u8],
) -> Result<&'a [u8], Fault<'n>>
    ensures { IfOk result (λ bytes. length bytes.now ≤ length room.old) }
{
    let mut wide = wide_buffer();
    let text = digits(rt, i, name, &mut wide)?;
    let n = decoded(text, name, room)?;
    Ok(&room[..n])
}
