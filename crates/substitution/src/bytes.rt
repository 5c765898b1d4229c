// One byte of a string in d + 1 shares of l bytes each: its shares stand l bytes apart.
ghost use Rattle.std.specs.Prelude.{◌≡◌, suc, ◌*◌, ◌<◌, ◌≤◌, length};
ghost use Rattle.shares.specs.Strings.{parts, laid};
ghost use Rattle.cipher.specs.States.{column, put};

use buffers::each::each_share;
use outcomes::Order;

// The shares of byte k.
pub fn gather(d: Order, l: usize, k: usize, s: &[u8], x: &mut [u8])
    requires { (k < l) × (length s.now ≡ suc d * l) × (length x.old ≡ suc d) }
    ensures { x.new ≡ column k (parts (suc d) l s.now) }
{
    for (i, byte) in x.iter_mut().enumerate() {
        *byte = s[i * l + k];
    }
}

// New shares of byte k.
pub fn scatter(d: Order, l: usize, k: usize, x: &[u8], s: &mut [u8])
    requires { (k < l) × (length s.old ≡ suc d * l) × (length x.now ≡ suc d) }
    ensures { s.new ≡ laid (put (parts (suc d) l s.old) k x.now) }
{
    each_share(d, l, s, |i, share| share[k] = x[i]);
}
