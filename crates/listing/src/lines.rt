// The lines of places: each has a place's number, its name, and the byte that a sheet has there. An empty sheet adds nothing. What is listed says how
// many lines it has, and what prints the name of each.
ghost use Rattle.std.specs.Prelude.{◌≡◌, ℕ, ◌+◌, ◌*◌, ◌<◌, ◌≤◌};
ghost use Rattle.xor.specs.Pairs.{pair_count};
ghost use Rattle.listing.specs.Most.{most};

use text::hexadecimal;

// The number of the next line's place, and the sheet.
#[derive(Drop)]
pub struct Lines<'a> {
    pub next: usize,
    sheet: &'a [u8],
}

impl<'a> Lines<'a> {
    // Before place 0.
    pub fn new(sheet: &'a [u8]) -> Lines<'a>
        ensures { result.next ≡ 0 }
    {
        Lines { next: 0, sheet }
    }

    // The end of a line: the byte that the sheet has there, if any.
    fn end(&mut self)
        requires { self.old.next < most }
        ensures { self.new.next ≡ self.old.next + 1 }
    {
        if let Some(byte) = self.sheet.get(self.next) {
            text::print(b" ");
            hexadecimal::print_byte(*byte);
        }
        text::print(b"\n");
        self.next += 1;
    }

    // So many lines. The name of line t of them is what `name` prints at t.
    pub fn each<F: Fn(usize)>(&mut self, count: usize, name: F)
        requires room { self.old.next + count ≤ most }
        requires named { (t : ℕ) → t < count → F.pre name t }
        ensures { self.new.next ≡ self.old.next + count }
    {
        for t in 0..count {
            text::print_number(self.next);
            text::print(b" ");
            name(t);
            self.end();
        }
    }

    // As many lines for each pair i < j of n shares, in the order of the draws. The name of line k of a pair is what `name` prints at i, j and k.
    #[tactic(auto, using(crate::proofs::CountLaws::pair_rows), unfolding(xor::specs::Pairs::before_row))]
    pub fn each_pair<F: Fn(usize, usize, usize)>(&mut self, n: usize, count: usize, name: F)
        requires room { self.old.next + count * pair_count n ≤ most }
        requires named { (i j k : ℕ) → i < j → j < n → k < count → F.pre name i j k }
        ensures { self.new.next ≡ self.old.next + count * pair_count n }
    {
        for i in 0..n {
            self.each(
                count * (n - (i + 1)),
                |t| name(i, i + 1 + t / count, t % count),
            );
        }
    }
}

// `r(0,1)` or `t(0,1)`: what is of two shares, by its letter and bracket.
pub fn print_of(letter: &[u8], i: usize, j: usize) {
    text::print_with(letter, i);
    text::print_with(b",", j);
    text::print(b")");
}
