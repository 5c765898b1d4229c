// The argument TAPE: words of 32 bits, each of which document 02, wish 6, reads lowest byte first. It is their values, eight hexadecimal digits each,
// or `-` for raw bytes from standard input, four each. Nothing is left out of either: what is no whole number of words cannot be read.
ghost use Rattle.std.specs.Prelude.{◌≡◌, ◌≤◌, length, IfOk};
ghost use Rattle.text.specs.Hexadecimal as Hexadecimal;
ghost use Rattle.text.specs.Packing as Packing;
ghost use Rattle.command_line.specs.Filled.{Filled};

use command_line::arguments;
use command_line::faults::Fault;
use std::env::Env;
use std::io::Read;
use text::{hexadecimal, packing};

// Room for the longest tape.
pub fn buffer() -> [u32; 16384]
    ensures { 16384 ≡ length result }
{
    [0; 16384]
}

// The words that text is in hexadecimal, at the front of out.
fn decoded(text: &[u8], out: &mut [u32]) -> Result<usize, Fault<'static>>
    ensures { Filled (Hexadecimal.words text.now) (length text.now) 8 out.old out.new result }
{
    let n = arguments::counted(text.len(), 8, out.len(), b"TAPE")?;
    hexadecimal::fill_words(text, &mut out[..n]);
    Ok(n)
}

// The words of raw bytes, at the front of out.
fn packed(bytes: &[u8], out: &mut [u32]) -> Result<usize, Fault<'static>>
    ensures { Filled (Packing.packed bytes.now) (length bytes.now) 4 out.old out.new result }
{
    let n = arguments::counted(bytes.len(), 4, out.len(), b"TAPE")?;
    packing::pack(bytes, &mut out[..n]);
    Ok(n)
}

// Standard input as it is. One read past what came tells the end from a failure, and from more than there is room for.
fn raw<'a, R: Input>(rt: &R, room: &'a mut [u8]) -> Result<&'a [u8], Fault<'static>>
    ensures { IfOk result (λ bytes. length bytes.now ≤ length room.old) }
{
    let mut past = [0u8; 1];
    let n = io::read_full(0, room);
    let mut input = rt.reader();
    match input.read(&mut past) {
        Ok(0) => Ok(&room[..n]),
        Ok(_) => Err(Fault::Long(b"TAPE", room.len() / 4, 4)),
        Err(_) => Err(Fault::UnreadableTape),
    }
}

fn from_digits<R: Env>(rt: &R, i: usize, out: &mut [u32]) -> Result<usize, Fault<'static>>
    ensures { IfOk result (λ n. n ≤ length out.new) }
{
    let mut wide = arguments::wide_buffer();
    decoded(arguments::digits(rt, i, b"TAPE", &mut wide)?, out)
}

fn from_input<R: Input>(rt: &R, out: &mut [u32]) -> Result<usize, Fault<'static>>
    ensures { IfOk result (λ n. n ≤ length out.new) }
{
    let mut bytes = io::large_buffer();
    packed(raw(rt, &mut bytes)?, out)
}

// Argument i as a tape. Where it has more than one character, it is none that fits, and so no `-`.
pub fn read<'a, R: Env + Input>(
    rt: &R,
    i: usize,
    room: &'a mut [u32],
) -> Result<&'a [u32], Fault<'static>>
    ensures { IfOk result (λ tape. length tape.now ≤ length room.old) }
{
    let n = match arguments::word(rt, i, &mut [0u8; 1]) {
        b"-" => from_input(rt, room)?,
        _ => from_digits(rt, i, room)?,
    };
    Ok(&room[..n])
}
