// Counting comparisons. The sums never come near 2^64; in their wrapping form they ask no proof of that.

// How many values were compared, and how many of them differed; how many lines were equal and are not shown; and how many could not be read.
#[derive(Clone, Copy, Default)]
pub struct Tally {
    pub compared: u64,
    pub different: u64,
    pub unshown: u64,
    pub unread: u64,
}

impl Tally {
    // One comparison more, at the end of the line that shows it.
    pub fn judge(&mut self, equal: bool) {
        self.compared = self.compared.wrapping_add(1);
        if equal {
            text::print(b", equal\n");
        } else {
            text::print(b", DIFFERENT\n");
            self.different = self.different.wrapping_add(1);
        }
    }

    // A line that was equal and is not shown.
    pub fn pass_over(&mut self) {
        self.compared = self.compared.wrapping_add(1);
        self.unshown = self.unshown.wrapping_add(1);
    }

    // A line that cannot be read is shown, and counts as a difference.
    pub fn leave_unread(&mut self, line: &[u8]) {
        self.unread = self.unread.wrapping_add(1);
        text::print(b"unread: ");
        text::print(line);
        self.judge(false);
    }
}

pub fn print(compared: u64, different: u64) {
    text::print_count(compared);
    text::print(b" comparisons, ");
    text::print_count(different);
    text::print(b" different\n");
}
