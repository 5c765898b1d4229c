// A test: lists a refresh of the shares s_0, s_1 and s_2. The commands list shares of two names only (`refresh` and `Of` of command_cubes), and
// `pairs` takes any. The file stdout has the lines in the order and form of document 02, wish 8.
#![tactic(auto)]

use command_cubes::names;
use listing::lines::Lines;

fn main() {
    names::pairs(&mut Lines::new(&[]), 3, |i| text::print_with(b"s_", i));
}
