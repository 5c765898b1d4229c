// A line is run, and what came is compared with what it wants.
use text::hexadecimal;
use vector_lines::answers::Came;
use vector_lines::counts::Tally;
use vector_lines::forms::Kind;
use vector_lines::lines::{Line, Word};
use vector_lines::{answers, forms};
use vector_routes::zeros;
use vector_runs::{places, runs};

// An output; of round keys the last one.
fn print_output(output: &[u8]) {
    if output.is_empty() {
        text::print(b"-");
    }
    let last = output.len().saturating_sub(16);
    hexadecimal::print(&output[last..]);
}

// Shows a line with what came in the place of what it wants. One without a name is shown only if it differs.
fn show(line: Line, wanted: &[u8], output: &[u8], c: Came, tally: &mut Tally) {
    let equal = output == wanted && answers::is_wanted(line, c);
    if equal && line.letter(Word::Name) == Some(b'-') {
        return tally.pass_over();
    }
    line.print_asked();
    print_output(output);
    answers::print(c);
    tally.judge(equal);
}

// What a line asks for. The output is all ff before, so that a refused call is seen to leave it.
fn come(kind: Kind, line: Line, output: &mut [u8]) -> Came {
    output.fill(0xff);
    match kind {
        Kind::Lengths => zeros::call(line),
        Kind::Read => places::read(line, output),
        _ => runs::run(kind, line, output),
    }
}

// The output is as long as what is wanted.
fn compare(kind: Kind, line: Line, tally: &mut Tally) {
    let mut words = io::buffer();
    let mut room = io::buffer();
    let wanted = line.bytes(Word::Wanted, &mut words);
    let output = &mut room[..wanted.len()];
    let c = come(kind, line, output);
    show(line, wanted, output, c, tally);
}

pub fn compare_line(line: Line, tally: &mut Tally) {
    match forms::kind_of(line) {
        Some(kind) => compare(kind, line, tally),
        None => tally.leave_unread(line.text),
    }
}
