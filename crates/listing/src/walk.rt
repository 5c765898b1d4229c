// Where a walk over the S-boxes of a call stands, and how each of them is named: for the listing of the tape, and for that of a call's places.
ghost use Rattle.std.specs.Prelude.{◌≡◌};

// What an S-box is of: a word of the expanded key, or a round.
#[derive(Clone, Copy)]
pub enum Part {
    KeyWord(usize),
    Round(usize),
}

// The number of the next S-box, and where it begins: its first byte on the tape, or its first place.
#[derive(Clone, Copy)]
pub struct Walk {
    pub number: usize,
    pub at: usize,
}

impl Part {
    // ` key word 4 byte 0` or ` round 1 state byte 4`: byte k goes in.
    fn print(self, k: usize) {
        match self {
            Part::KeyWord(i) => {
                text::print_with(b" key word ", i);
                text::print_with(b" byte ", k)
            }
            Part::Round(r) => {
                text::print_with(b" round ", r);
                text::print_with(b" state byte ", k)
            }
        }
    }
}

impl Walk {
    // Before the first.
    pub fn new() -> Walk
        ensures { result.at ≡ 0 }
    {
        Walk { number: 0, at: 0 }
    }

    // `S-box 0 key word 4 byte 0`: names the next S-box, and goes on to the number behind it.
    pub fn name_box(&mut self, part: Part, k: usize)
        ensures { self.new.at ≡ self.old.at }
    {
        text::print_with(b"S-box ", self.number);
        part.print(k);
        self.number = self.number.wrapping_add(1);
    }
}
