// Listed places of a product, which document 01 numbers: the bytes there, or the refusal.
use vector_lines::answers::{Came, Failure};
use vector_lines::lines::{Line, Word};
use vector_lines::{answers, tapes};

// Listed places of the product of two bytes, whose shares a line has, on its tape.
fn read_listed(line: Line, list: &[u16], output: &mut [u8]) -> Came {
    let mut words = tapes::buffer();
    let tape = line.tape(Word::Tape, &mut words);
    let mut room = io::buffer();
    let both = line.bytes(Word::Key, &mut room);
    let (first, second) = both.split_at(both.len() / 2);
    let order = line.number(Word::Order);
    answers::of(readings::read_places(order, first, second, tape, list, output))
}

// The places that a line lists, at most three: two bytes each, the high one first.
pub fn read(line: Line, output: &mut [u8]) -> Came {
    let mut room = io::buffer();
    let (listed, _) = line.bytes(Word::Block, &mut room).as_chunks::<2>();
    let mut places = [0; 3];
    for (place, bytes) in places.iter_mut().zip(listed) {
        *place = u16::from_be_bytes(*bytes);
    }
    let list = places.get(..listed.len()).ok_or(Failure::Unmade)?;
    read_listed(line, list, output)
}
