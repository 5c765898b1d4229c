// Text and numbers on standard output and standard error. What a write answers is dropped: there is nobody else to tell.
use std::fmt;

// Where a program writes, for `write!` and all that has a `Display`.
#[derive(Clone, Copy)]
pub enum Stream {
    Output,
    Error,
}

impl fmt::Write for Stream {
    fn write_str(&mut self, s: &str) -> fmt::Result {
        let number = match self {
            Stream::Output => 1,
            Stream::Error => 2,
        };
        io::write_all(number, s.as_bytes());
        Ok(())
    }
}

pub fn print(words: &[u8]) {
    io::write_all(1, words);
}

pub fn print_count(n: u64) {
    io::print_decimal(1, n);
}

pub fn print_number(n: usize) {
    print_count(n as u64);
}

// Words, and a number behind them.
pub fn print_with(words: &[u8], n: usize) {
    print(words);
    print_number(n);
}
