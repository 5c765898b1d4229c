// Which bytes of the tape go into which step of an encryption, or of a decryption, which has as many S-boxes in the same order. Each function
// prints some lines, or a part of one, and takes the walk over the bytes further. How many bytes a step takes is the library's own number.
// Bytes run through a call without a gap, so an S-box may begin and end within a word (document 02, wish 6).
ghost use Rattle.std.specs.Prelude.{◌≤◌};

use crate::walk::{Part, Walk};
use lengths::key::KeyWords;
use outcomes::Order;

// A step that takes n bytes.
fn step(walk: &mut Walk, name: &[u8], n: usize) {
    text::print_with(name, walk.at);
    walk.at = walk.at.wrapping_add(n);
    text::print_with(b"..", walk.at.wrapping_sub(1));
}

// The words that hold the bytes up to the next one, as the end of a line.
fn words(first: usize, next: usize) {
    text::print_with(b", in words ", first / 4);
    text::print_with(b"..", next.wrapping_sub(1) / 4);
    text::print(b"\n");
}

// The steps of an S-box that draw, in their order, as the end of its line.
fn steps(walk: &mut Walk, d: Order) {
    let first = walk.at;
    let r = refresh::refreshing::refresh_need(d);
    let p = masking::product::product_need(d);
    step(walk, b": refresh z ", r);
    step(walk, b", z*x ", p);
    step(walk, b", refresh w ", r);
    step(walk, b", y*w ", p);
    step(walk, b", y^16*w ", p);
    step(walk, b", y*z ", p);
    words(first, walk.at);
}

// The S-box that byte k goes into.
fn sbox_line(walk: &mut Walk, d: Order, part: Part, k: usize) {
    walk.name_box(part, k);
    steps(walk, d);
}

// The S-boxes for word i of the expanded key, of the bytes of the word before it.
fn key_word(walk: &mut Walk, d: Order, i: usize) {
    for k in 0..4usize {
        sbox_line(walk, d, Part::KeyWord(i), k);
    }
}

// Whether word i is made with S-boxes.
fn is_boxed(nk: usize, i: usize) -> bool
    requires { 1 ≤ nk }
{
    let left = i % nk;
    left == 0 || (nk > 6 && left == 4)
}

// All words behind the key's own.
fn key_words(walk: &mut Walk, nk: usize, d: Order)
    requires { (1 ≤ nk) × (nk ≤ 8) }
{
    for i in nk..4 * (nk + 7) {
        if is_boxed(nk, i) {
            key_word(walk, d, i);
        }
    }
}

// The S-boxes of round r, row by row.
fn round(walk: &mut Walk, d: Order, r: usize) {
    for m in 0..16usize {
        sbox_line(walk, d, Part::Round(r), m / 4 + 4 * (m % 4));
    }
}

fn rounds(walk: &mut Walk, nk: usize, d: Order)
    requires { nk ≤ 8 }
{
    for r in 1..nk + 7 {
        round(walk, d, r);
    }
}

// How much tape a call takes: whole words, and the bytes that it draws from them.
fn print_need(name: &[u8], bytes: usize) {
    text::print_with(name, tape_words::words_for(bytes));
    text::print_with(b" words, ", bytes);
    text::print(b" bytes");
}

// How much the library asks for: in the single call, and in each of the two calls from prepared keys. Then how the lines are read for a decryption,
// whose rounds FIPS 197 counts down.
fn print_needs(key: KeyWords, d: Order) {
    print_need(b"total ", lengths::needs::cipher_need(key, d));
    print_need(b"\npreparation ", lengths::needs::schedule_need(key, d));
    print_need(b"; rounds ", lengths::needs::encrypted_with_need(key, d));
    text::print(
        b"\ndecryption, in a single call only: the same, where round 1 is the first to run and state bytes are those after InvShiftRows\n",
    );
}

// All S-boxes of a call with a key of that size, and its needs.
pub fn print(key: KeyWords, d: Order) {
    text::print(b"ranges are in bytes; tape word k has bytes 4*k to 4*k+3, the lowest first\n");
    let mut walk = Walk::new();
    key_words(&mut walk, key.nk, d);
    rounds(&mut walk, key.nk, d);
    print_needs(key, d);
}
