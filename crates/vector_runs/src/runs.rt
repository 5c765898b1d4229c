// A run of a plain key and block: both are split, their shares go by a route, and what comes is joined.
use vector_lines::answers::Came;
use vector_lines::forms::Kind;
use vector_lines::lines::{Line, Word};
use vector_lines::{answers, tapes};
use vector_routes::routes;
use vector_routes::routes::Block;

// A string XORed into a sum.
fn add(part: &[u8], sum: &mut [u8]) {
    for (s, byte) in sum.iter_mut().zip(part) {
        *s ^= *byte;
    }
}

// The strings of parts, each as long as sum, XORed into it.
fn add_all(parts: &[u8], sum: &mut [u8]) {
    let n = sum.len();
    if n == 0 {
        return;
    }
    for part in parts.chunks(n) {
        add(part, sum);
    }
}

// All round keys of a key in shares, joined. The output is as long as they are.
fn expand(order: usize, key: &[u8], tape: &[u32], output: &mut [u8]) -> Came {
    let mut room = io::buffer();
    let keys = routes::shares_in(&mut room, order, output.len());
    let came = answers::of(aes::prepare(order, key, tape, keys));
    output.fill(0);
    add_all(keys, output);
    came
}

// A word of a line in shares, at the front of out. Answers with the tape that the splitting left.
fn split<'a>(line: Line, w: Word, tape: &'a [u32], out: &mut [u8]) -> &'a [u32] {
    let order = line.number(Word::Order);
    let mut room = io::buffer();
    let plain = line.bytes(w, &mut room);
    let parts = routes::shares_in(out, order, plain.len());
    let came = answers::of(shares::split(order, plain, tape, parts));
    answers::rest(tape, came)
}

// A key and a block in shares by a route, and what comes joined.
fn joined(kind: Kind, block: Block, output: &mut [u8]) -> Came {
    let mut room = io::buffer();
    let outputs = routes::shares_in(&mut room, block.order, 16);
    let came = block.run(kind, outputs);
    answers::of(shares::join(block.order, outputs, output))?;
    came
}

// The block of a line with its key in shares, by a route.
fn with_key(kind: Kind, line: Line, key: &[u8], tape: &[u32], output: &mut [u8]) -> Came {
    let order = line.number(Word::Order);
    let mut room = io::buffer();
    let rest = split(line, Word::Block, tape, &mut room);
    let block = Block {
        order,
        key,
        input: routes::shares_in(&mut room, order, 16),
        tape: rest,
    };
    joined(kind, block, output)
}

// The run that a line asks for.
pub fn run(kind: Kind, line: Line, output: &mut [u8]) -> Came {
    let order = line.number(Word::Order);
    let tape = tapes::made(line.number(Word::Tape));
    let mut room = io::buffer();
    let rest = split(line, Word::Key, &tape, &mut room);
    let key = routes::shares_in(&mut room, order, line.word(Word::Key).len() / 2);
    match kind {
        Kind::Keys => expand(order, key, rest, output),
        _ => with_key(kind, line, key, rest, output),
    }
}
