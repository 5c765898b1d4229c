// One thing done to every share of a string in shares: the linear steps and the key expansion hand over what it is. Document 01, "The steps over
// shares", decides the layout.
//
// Kept: a loop by the share's number. A closure gets each part `&mut s[a..e]`; std's `chunks_exact_mut` would cut the same parts, but once they are
// given back, a proof knows the string's length alone.
ghost use Rattle.std.specs.Prelude.{◌≡◌, ℕ, List, suc, ◌*◌, ◌≤◌, length};
ghost use Rattle.shares.specs.Strings.{parts, laid};
ghost use Rattle.cipher.specs.States.{each_by};
ghost use Rattle.buffers.specs.Each.{TakesShares, MakesShares};

use outcomes::Order;

// f on each share of s, of l bytes each; it is told the share's number.
pub fn each_share<F: Fn(usize, &mut [u8])>(d: Order, l: usize, s: &mut [u8], f: F)
    requires long { length s.old ≡ suc d * l }
    requires takes { TakesShares F.Fn f (suc d) l }
    ensures { (g : ℕ → List ℕ → List ℕ) → MakesShares F.Fn f (suc d) l g
        → s.new ≡ laid (each_by g 0 (parts (suc d) l s.old)) }
{
    for i in 0..d.shares() {
        let a = i * l;
        let e = a + l;
        f(i, &mut s[a..e]);
    }
}
