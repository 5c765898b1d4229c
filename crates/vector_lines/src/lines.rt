// The text of a line: words with one space between them, read as numbers, as bytes in hexadecimal, and as a tape.
ghost use Rattle.std.specs.Prelude.{◌≡◌, ◌*◌, ◌<◌, ◌≤◌, length};

use text::hexadecimal;

// Room for standard input, and for the bytes of a tape. A longer input is not read to its end, and the counts at the end of the output tell.
pub fn buffer() -> [u8; 196608]
    ensures { 196608 ≡ length result }
{
    [0; 196608]
}

// The words of a line, by what they are; forms.rt says what stands in each.
#[derive(Clone, Copy)]
pub enum Word {
    Kind,
    Name,
    Order,
    Tape,
    Key,
    Block,
    Wanted,
    Outcome,
    Number,
}

// All of them, in their order on a line.
pub const WORDS: [Word; 9] = [
    Word::Kind,
    Word::Name,
    Word::Order,
    Word::Tape,
    Word::Key,
    Word::Block,
    Word::Wanted,
    Word::Outcome,
    Word::Number,
];

#[derive(Clone, Copy)]
pub struct Line<'a> {
    pub text: &'a [u8],
}

impl<'a> Line<'a> {
    // A word; where the line has fewer, an empty one.
    pub fn word(self, w: Word) -> &'a [u8] {
        let mut words = self.text.split(|c| *c == b' ');
        words.nth(w as usize).unwrap_or(&[])
    }

    // Whether nothing stands behind the last word, but for a space.
    pub fn ends(self) -> bool {
        let mut words = self.text.splitn(10, |c| *c == b' ');
        words.nth(9).unwrap_or(&[]).is_empty()
    }

    // The first letter of a word.
    pub fn letter(self, w: Word) -> Option<u8> {
        self.word(w).first().copied()
    }

    // A word in decimal, modulo 2^64.
    pub fn number(self, w: Word) -> usize {
        let mut n: usize = 0;
        for c in self.word(w) {
            n = n.wrapping_mul(10).wrapping_add((*c % 16) as usize);
        }
        n
    }

    // The bytes of a word, at the front of room; none where there is no room for them.
    pub fn bytes<'b>(self, w: Word, room: &'b mut [u8]) -> &'b [u8]
        ensures { length result.now ≤ length room.old }
    {
        let (digits, out) = paired(self.word(w), 2, room);
        hexadecimal::fill(digits, out);
        out
    }

    // The words of a tape, in the same way.
    pub fn tape<'b>(self, w: Word, room: &'b mut [u32]) -> &'b [u32]
        ensures { length result.now ≤ length room.old }
    {
        let (digits, out) = paired(self.word(w), 8, room);
        hexadecimal::fill_words(digits, out);
        out
    }

    // What the line asks for: the words in front of what it wants, and the space behind them, in one write.
    pub fn print_asked(self) {
        let mut words = self.text.splitn(7, |c| *c == b' ');
        let rest = words.nth(6).unwrap_or(&[]);
        let n = self.text.len().saturating_sub(rest.len());
        text::print(&self.text[..n]);
    }
}

// The digits of a word, so many for each element, and the front of room for the elements; none of either where there is no room.
fn paired<'a, 'b, T>(word: &'a [u8], each: usize, room: &'b mut [T]) -> (&'a [u8], &'b mut [T])
    requires { 0 < each }
    ensures each { length result.0.now ≡ length result.1.now * each }
    ensures room { length result.1.now ≤ length room.old }
{
    let n = word.len() / each;
    if room.len() < n {
        return (&[], &mut []);
    }
    (&word[..n * each], &mut room[..n])
}

// Whether a word is a number in decimal.
pub fn is_number(word: &[u8]) -> bool {
    !word.is_empty() && word.iter().all(|c| c.is_ascii_digit())
}

// Whether a word is bytes in hexadecimal, at most 15 round keys; `-` is none.
pub fn is_bytes(word: &[u8]) -> bool {
    match word {
        [] => false,
        b"-" => true,
        _ => word.len() <= 480 && word.len() % 2 == 0 && hexadecimal::are_digits(word),
    }
}

// Whether a word is a tape: words of 32 bits, eight digits each.
pub fn is_tape(word: &[u8]) -> bool {
    word.len() % 8 == 0 && is_bytes(word)
}
