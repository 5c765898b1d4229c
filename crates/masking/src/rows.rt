// The rows of memory that the bytes of a row's pairs go through (the rule at the head of steps.rt), as one value. Document 01, "The steps over
// shares", decides what they are.
ghost use Rattle.std.specs.Prelude.{◌≡◌, replicate};
ghost use Rattle.xor.specs.Lists.{tab};
ghost use Rattle.xor.specs.Running.{owns};
ghost use Rattle.xor.specs.Writes.{front};
ghost use Rattle.masking.specs.Steps;
ghost use Rattle.masking.specs.Fits.{RowFits};

use gf256::Tables;

// One row for each step that leaves bytes; there are at most 8 pairs.
#[derive(Clone, Copy)]
pub struct Rows {
    pub upper: [u8; 8], // a_i · b_j, the product above the diagonal
    pub half: [u8; 8], // r(i, j) XOR a_i · b_j
    pub lower: [u8; 8], // a_j · b_i, the product below it
    pub back: [u8; 8], // r(j, i)
    pub own: [u8; 8], // share i's running sums, one after each draw
}

impl Rows {
    // All zero.
    pub fn new() -> Rows
        ensures { (result.upper ≡ replicate 8 0) × (result.half ≡ replicate 8 0) × (result.lower ≡ replicate 8 0)
            × (result.back ≡ replicate 8 0) × (result.own ≡ replicate 8 0) }
    {
        Rows {
            upper: [0; 8],
            half: [0; 8],
            lower: [0; 8],
            back: [0; 8],
            own: [0; 8],
        }
    }

    // `take_row` over the fronts of these rows. Answers with how many bytes were drawn.
    pub fn take(
        &mut self,
        tables: &Tables,
        i: usize,
        w: usize,
        a: &[u8],
        b: &[u8],
        tape: &[u8],
        sums: &mut [u8],
    ) -> usize
        requires { RowFits i w a.now b.now tape.now sums.old }
        ensures { (result ≡ w)
            × (self.new.upper ≡ front (tab (Steps.uppers a.now b.now i) w) self.old.upper)
            × (self.new.half ≡ front (tab (Steps.halves a.now b.now tape.now i) w) self.old.half)
            × (self.new.lower ≡ front (tab (Steps.lowers a.now b.now i) w) self.old.lower)
            × (self.new.back ≡ front (tab (Steps.backs a.now b.now tape.now i) w) self.old.back)
            × (self.new.own ≡ front (owns tape.now sums.old i w) self.old.own)
            × (sums.new ≡ Steps.pairs_taken a.now b.now tape.now i w sums.old) }
    {
        crate::steps::take_row(
            tables,
            i,
            w,
            a,
            b,
            tape,
            &mut self.upper,
            &mut self.half,
            &mut self.lower,
            &mut self.back,
            &mut self.own,
            sums,
        )
    }
}
