// Bytes in hexadecimal, two digits each, and words of 32 bits, eight digits each: the high digit first. Digits are read in either case and printed in
// lower case.
ghost use Rattle.std.specs.Prelude.{◌≡◌, ◌+◌, ◌*◌, ◌<◌, ◌≤◌, length, MatchOption};
ghost use Rattle.text.specs.Hexadecimal as Hexadecimal;

use crate::packing;

// The value of a digit, where the character is one.
#[tactic(auto, unfolding(crate::specs::Hexadecimal::digit))]
fn digit(c: u8) -> Option<u8>
    ensures { MatchOption result (Hexadecimal.digit c ≡ 16) (λ d. (d ≡ Hexadecimal.digit c) × (d < 16)) }
{
    match c {
        b'0'..=b'9' => Some(c - b'0'),
        b'a'..=b'f' => Some(c - b'a' + 10),
        b'A'..=b'F' => Some(c - b'A' + 10),
        _ => None,
    }
}

// Whether each character is a digit.
pub fn are_digits(text: &[u8]) -> bool {
    text.iter().all(|c| digit(*c).is_some())
}

// Two digits as one byte. A character that is none counts as 0.
fn byte_of(high: u8, low: u8) -> u8
    ensures { result ≡ Hexadecimal.byte high low }
{
    digit(high).unwrap_or(0) * 16 + digit(low).unwrap_or(0)
}

// The byte that two digits are, from there on.
#[tactic(auto, unfolding(crate::specs::Hexadecimal::byte_at, xor::specs::Lists::at))]
fn byte_at(text: &[u8], i: usize) -> u8
    requires { i + 2 ≤ length text.now }
    ensures { result ≡ Hexadecimal.byte_at text.now i }
{
    byte_of(text[i], text[i + 1])
}

// The bytes of text, which has two digits for each.
// Kept: places in the text by number. Over a zip with its chunks, out is the iterator's, and no invariant can say what it holds so far.
pub fn fill(text: &[u8], out: &mut [u8])
    requires { length text.now ≡ length out.old * 2 }
    ensures { out.new ≡ Hexadecimal.bytes text.now (length out.old) }
{
    for (k, b) in out.iter_mut().enumerate() {
        *b = byte_at(text, k * 2);
    }
}

// The word whose value eight digits are, from there on.
#[tactic(auto, unfolding(crate::specs::Hexadecimal::word_at))]
fn word_at(text: &[u8], i: usize) -> u32
    requires { i + 8 ≤ length text.now }
    ensures { result ≡ Hexadecimal.word_at text.now i }
{
    packing::word(
        byte_at(text, i + 6),
        byte_at(text, i + 4),
        byte_at(text, i + 2),
        byte_at(text, i),
    )
}

// The words of text, which has eight digits for each.
// Kept: as for `fill`; the loops of these two and of `packing::pack` are one line each, and a function that takes that line is no shorter.
pub fn fill_words(text: &[u8], out: &mut [u32])
    requires { length text.now ≡ length out.old * 8 }
    ensures { out.new ≡ Hexadecimal.words text.now (length out.old) }
{
    for (k, w) in out.iter_mut().enumerate() {
        *w = word_at(text, k * 8);
    }
}

pub fn print(bytes: &[u8]) {
    for b in bytes {
        print_byte(*b);
    }
}

pub fn print_byte(b: u8) {
    io::print_hex(1, b as u64, 2);
}
