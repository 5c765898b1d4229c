// What `vectors` reads and counts, apart from the library that it runs: the text of a line that asks for a run and says what is wanted of it, its
// form, the tape that a number names, the answer that came, and how many comparisons were equal.
#![tactic(auto)]

pub mod answers;
pub mod counts;
pub mod forms;
pub mod lines;
pub mod tapes;
