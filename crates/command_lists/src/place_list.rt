// A list of places, from the arguments behind the tape.
ghost use Rattle.std.specs.Prelude.{◌≡◌, ◌≤◌, length, IfOk};

use command_line::arguments;
use command_line::faults::Fault;
use std::env::Env;

// Room for more places than the library serves at any order.
pub fn buffer() -> [u16; 256]
    ensures { 256 ≡ length result }
{
    [0; 256]
}

// A place number.
fn listed<R: Env>(rt: &R, i: usize) -> Result<u16, Fault<'static>> {
    let place = arguments::number(rt, i, b"PLACE")?;
    u16::try_from(place).map_err(|_| Fault::HighPlace)
}

// The places that the arguments from `first` on name. None is read behind one that could not be.
pub fn read<'a, R: Env>(
    rt: &R,
    first: usize,
    room: &'a mut [u16; 256],
) -> Result<&'a [u16], Fault<'static>>
    ensures { IfOk result (λ list. length list.now ≤ 256) }
{
    let n = arguments::count(rt).wrapping_sub(first);
    if 256 < n {
        return Err(Fault::ManyPlaces);
    }
    let list = &mut room[..n];
    for (k, place) in list.iter_mut().enumerate() {
        *place = listed(rt, first.wrapping_add(k))?;
    }
    Ok(list)
}
