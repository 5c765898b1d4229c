// Calls on zeros, by the lengths of their buffers: which are served, and which are refused under what number. Document 01 decides, and document 02,
// wish 2, has decryption answer like encryption.
use crate::routes::Block;
use vector_lines::answers::{Came, Failure};
use vector_lines::forms::Kind;
use vector_lines::lines::{Line, Word};
use vector_lines::tapes;

// That many of the zeros, at most all.
fn front<T>(zeros: &[T], n: usize) -> &[T] {
    zeros.get(..n).unwrap_or(zeros)
}

// A call on zeros, in buffers of the lengths that a line has.
pub fn call(line: Line) -> Came {
    let mut room = io::buffer();
    let zeros = io::large_buffer();
    let words = tapes::made(0);
    let block = Block {
        order: line.number(Word::Order),
        key: front(&zeros, line.number(Word::Key)),
        input: front(&zeros, line.number(Word::Block)),
        tape: front(&words, line.number(Word::Tape)),
    };
    let route = line.letter(Word::Name).and_then(Kind::named);
    let output = room.get_mut(..block.input.len());
    match (route, output) {
        (Some(route), Some(output)) => block.run(route, output),
        _ => Err(Failure::Unmade),
    }
}
