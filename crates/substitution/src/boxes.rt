// S-boxes of bytes of a string in shares, in place, in the order that document 01 gives; inverse S-boxes in the same order. Four S-boxes are
// the unit: a word, or a row of a state. They draw whole words of the tape (document 02, wish 6), and so does all that is made of them: `sub_four`
// unpacks its words, below it S-boxes draw bytes without a gap, and from it upwards functions count words.
ghost use Rattle.std.specs.Prelude.{◌≡◌, suc, ◌*◌, ◌≤◌, length};
ghost use Rattle.tape_words.specs.Words.{bytes_of};
ghost use Rattle.shares.specs.Strings.{parts, laid};
ghost use Rattle.sbox.specs.Box.{box_need};
ghost use Rattle.cipher.specs.Cipher.{sub_at, subs, subs_of, subs_need, by_rows, in_word};
ghost use Rattle.substitution.specs.Boxes.{spaced, PlaceFits, FourFits};

use gf256::{Direction, Tables};
use outcomes::Order;

// The S-box of byte k. Answers with how many bytes were drawn.
fn sub_place(
    tables: &Tables,
    which: Direction,
    d: Order,
    l: usize,
    k: usize,
    tape: &[u8],
    s: &mut [u8],
) -> usize
    requires { PlaceFits d l k tape.now s.old }
    ensures { (result ≡ box_need d)
        × (s.new ≡ laid (sub_at which d k (parts (suc d) l s.old) tape.now)) }
{
    let mut room = [0u8; 9];
    let n = d.shares();
    let x = &mut room[0..n];
    crate::bytes::gather(d, l, k, s, x);
    let drawn = sbox::boxes::box_of(tables, which, d, tape, x);
    crate::bytes::scatter(d, l, k, x, s);
    drawn
}

// The S-boxes of four bytes, a quarter of the string apart: the first, and the next each `stride` further. Answers with how many bytes were drawn.
// Their number is worked out, not written as 4: the compiler unrolls a loop of 4 here, and the function is then too long to be inlined.
fn sub_spaced(
    tables: &Tables,
    which: Direction,
    d: Order,
    l: usize,
    first: usize,
    stride: usize,
    tape: &[u8],
    s: &mut [u8],
) -> usize
    requires { FourFits d l first stride tape.now s.old }
    ensures { (result ≡ subs_need d (spaced first stride))
        × (s.new ≡ laid (subs_of which d (spaced first stride) (parts (suc d) l s.old) tape.now)) }
{
    // Kept: each S-box gets the tape from its own draw on, and the count rises with each (document 01); m is which of the four it is.
    let mut at: usize = 0;
    let n = l / stride;
    for m in 0..n {
        let k = first + m * stride;
        at += sub_place(tables, which, d, l, k, &tape[at..], s);
    }
    at
}

// The same on a tape of words. Answers with how many words were drawn. It is a call of its own in the built library too: inlined, a round has it
// four times, and its stack four times what is drawn here.
#[inline(never)]
fn sub_four(
    tables: &Tables,
    which: Direction,
    d: Order,
    l: usize,
    first: usize,
    stride: usize,
    tape: &[u32],
    s: &mut [u8],
) -> usize
    requires { FourFits d l first stride (bytes_of tape.now) s.old }
    ensures { (4 * result ≡ subs_need d (spaced first stride))
        × (s.new ≡ laid (subs_of which d (spaced first stride) (parts (suc d) l s.old) (bytes_of tape.now))) }
{
    let mut drawn = [0u8; 4 * sbox::boxes::MOST];
    tape_words::unpack(4 * sbox::boxes::box_need(d), tape, &mut drawn);
    sub_spaced(tables, which, d, l, first, stride, &drawn, s) / 4
}

// The S-boxes of a state, row by row. Answers with how many words were drawn.
pub fn sub_rows(tables: &Tables, which: Direction, d: Order, tape: &[u32], s: &mut [u8]) -> usize
    requires { (length s.old ≡ suc d * 16) × (subs_need d by_rows ≤ length (bytes_of tape.now)) }
    ensures { (4 * result ≡ subs_need d by_rows)
        × (s.new ≡ laid (subs_of which d by_rows (parts (suc d) 16 s.old) (bytes_of tape.now))) }
{
    // Kept: as in `sub_spaced`, row by row.
    let mut at: usize = 0;
    for r in 0..4 {
        at += sub_four(tables, which, d, 16, r, 4, &tape[at..], s);
    }
    at
}

// The S-boxes of a word. Answers with how many words were drawn.
pub fn sub_word(tables: &Tables, d: Order, tape: &[u32], s: &mut [u8]) -> usize
    requires { (length s.old ≡ suc d * 4) × (subs_need d in_word ≤ length (bytes_of tape.now)) }
    ensures { (4 * result ≡ subs_need d in_word)
        × (s.new ≡ laid (subs d in_word (parts (suc d) 4 s.old) (bytes_of tape.now))) }
{
    sub_four(tables, Direction::Forward, d, 4, 0, 1, tape, s)
}
