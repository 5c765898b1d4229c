// Runs the masked AES on values known from elsewhere and compares: document 01's small values that no theorem covers, the published examples of
// FIPS 197, and what an unrelated AES made; and the field's two products on all bytes. Each line of standard input, which make-stdin makes, is one
// run and what is wanted of it (forms.rt of vector_lines). A line of output is that line with what came in the place of what is wanted.
#![tactic(auto)]

mod comparisons;
mod products;

use vector_lines::counts::Tally;
use vector_lines::lines::Line;
use vector_lines::{counts, lines};

// All lines in turn.
fn compare(input: &[u8], tally: &mut Tally) {
    for ended in input.split_inclusive(|c| *c == b'\n') {
        let text = ended.strip_suffix(b"\n").unwrap_or(ended);
        comparisons::compare_line(Line { text }, tally);
    }
}

fn main() {
    let mut input = lines::buffer();
    let n = io::read_full(0, &mut input);
    let mut tally = products::compare();
    compare(&input[..n], &mut tally);
    text::print(b"equal and not shown: ");
    text::print_count(tally.unshown);
    text::print(b"\nunread: ");
    text::print_count(tally.unread);
    text::print(b"\n");
    counts::print(tally.compared, tally.different);
}
