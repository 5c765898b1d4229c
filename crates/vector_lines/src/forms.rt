// The form of a line: KIND NAME ORDER TAPE KEY BLOCK WANTED taken|refused NUMBER. ORDER and NUMBER are decimal, KEY, BLOCK and WANTED hexadecimal.
// - encrypt, prepared, decrypt, trip (encryption and back), keys (key expansion): KEY and BLOCK are plain, and split on the front of the tape. TAPE 0
//   is all zero, 1 all ff, and any other number starts a pseudo-random one. WANTED is what the output joins to, of keys all round keys. NUMBER is
//   how many tape words the calls take behind the splitting.
// - lengths: the route NAME on zeros. TAPE is how many words, KEY and BLOCK how many bytes, in decimal, and there is no output to compare.
// - read: the places BLOCK, four digits each, of the product of two bytes, whose shares are KEY. TAPE is the tape's words, eight digits each, and
//   WANTED the bytes there.
// A KIND, a NAME that is a route, and taken or refused are told by their first letter. A line whose NAME is `-` is shown only if it differs.
use crate::lines;
use crate::lines::{Line, Word};

#[derive(Clone, Copy)]
pub enum Kind {
    Encrypt,
    Prepared,
    Decrypt,
    Trip,
    Keys,
    Lengths,
    Read,
}

impl Kind {
    pub fn named(letter: u8) -> Option<Kind> {
        match letter {
            b'e' => Some(Kind::Encrypt),
            b'p' => Some(Kind::Prepared),
            b'd' => Some(Kind::Decrypt),
            b't' => Some(Kind::Trip),
            b'k' => Some(Kind::Keys),
            b'l' => Some(Kind::Lengths),
            b'r' => Some(Kind::Read),
            _ => None,
        }
    }

    // Whether a text may stand as that word of a line of this kind.
    fn fits(self, word: Word, text: &[u8]) -> bool {
        match (word, self) {
            (Word::Kind | Word::Name | Word::Outcome, _) => true,
            (Word::Order | Word::Number, _) => lines::is_number(text),
            (Word::Tape, Kind::Read) => lines::is_tape(text),
            (Word::Tape, _) | (Word::Key | Word::Block, Kind::Lengths) => lines::is_number(text),
            _ => lines::is_bytes(text),
        }
    }
}

// The kind of a line that can be read: one that has its nine words.
pub fn kind_of(line: Line) -> Option<Kind> {
    let kind = line.letter(Word::Kind).and_then(Kind::named)?;
    let fits = lines::WORDS.iter().all(|w| kind.fits(*w, line.word(*w)));
    if fits && line.ends() {
        return Some(kind);
    }
    None
}
