// A row of pairs goes into the running sums of the shares. The product and its sheet, where the sums start as a_i · b_i, and the refresh, where they
// start as the shares, take each byte from this one routine. The rule at the head of masking's steps.rt holds here.
ghost use Rattle.std.specs.Prelude.{◌≡◌};
ghost use Rattle.xor.specs.Lists.{at};
ghost use Rattle.xor.specs.Running.{owns, row_taken};
ghost use Rattle.xor.specs.Writes.{front};
ghost use Rattle.pairs.specs.Fits.{SumsFit};

// The pairs of row i with the w shares behind it: the draws, which stand at the front of the tape, go into the sum of share i, whose bytes on the way
// are left in own; each byte of back into that of share j. Answers with how many draws were taken in.
pub fn sum_row(
    i: usize,
    w: usize,
    tape: &[u8],
    back: &[u8],
    own: &mut [u8],
    sums: &mut [u8],
) -> usize
    requires { SumsFit i w tape.now back.now own.old sums.old }
    ensures { (result ≡ w)
        × (own.new ≡ front (owns tape.now sums.old i w) own.old)
        × (sums.new ≡ row_taken i w (at tape.now) (at back.now) sums.old) }
{
    let start = sums[i];
    let mut s = start;
    // The count rises with each draw, as document 01 has it.
    let mut drawn: usize = 0;
    for (m, r) in tape[..w].iter().enumerate() {
        drawn += 1;
        s ^= *r;
        own[m] = s;
        sums[i + 1 + m] ^= back[m];
    }
    sums[i] = own[w - 1];
    drawn
}
