// Half of an exponent, by which the tables take squares and powers 4 and 16. Each of these is additive, so it acts share by share.
ghost use Rattle.std.specs.Prelude.{◌≡◌};
ghost use Rattle.gf256.specs.Exponents.{half_of};

use crate::Exponent;

// Half of the exponent.
pub(crate) fn half(which: Exponent) -> usize
    ensures { result ≡ half_of which }
{
    match which {
        Exponent::Two => 1,
        Exponent::Four => 2,
        Exponent::Sixteen => 8,
    }
}
