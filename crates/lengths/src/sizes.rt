// Which size of key a call has, by the length of its shares or of its prepared keys. Document 01, and document 02, wish 1, decide.
ghost use Rattle.std.specs.Prelude.{◌≡◌, ◌≤◌, IfSome, IfNone};
ghost use Rattle.lengths.specs.Lengths.{key_words, prepared_length, prepared_words};

use crate::key::KeyWords;
use outcomes::Order;

// The size of the key, by the length of its shares, if that is a key's.
pub fn key_words(d: Order, length: usize) -> Option<KeyWords>
    ensures some { IfSome result (λ k. k.nk ≡ key_words d length) }
    ensures none { IfNone result (key_words d length ≡ 0) }
{
    let l = outcomes::asked::share_length(d.shares(), length)?;
    Some(KeyWords { nk: l / 4 })
}

// The length of prepared keys: d + 1 shares of nk + 7 round keys.
pub fn prepared_length(nk: usize, d: Order) -> usize
    requires { nk ≤ 8 }
    ensures { (result ≡ prepared_length nk d) × (result ≤ 2160) }
{
    d.shares() * (16 * (nk + 7))
}

// The size of the key behind prepared keys, by their length, if that is one of the three.
pub fn prepared_words(d: Order, length: usize) -> Option<KeyWords>
    ensures some { IfSome result (λ k. k.nk ≡ prepared_words d length) }
    ensures none { IfNone result (prepared_words d length ≡ 0) }
{
    let l = outcomes::asked::one_of(&[176, 208, 240], d.shares(), length)?;
    Some(KeyWords { nk: l / 16 - 7 })
}
