// How many tape bytes each routine draws. Document 01's table and document 02, wish 1, decide.
ghost use Rattle.std.specs.Prelude.{◌≡◌, ◌*◌, ◌≤◌};
ghost use Rattle.cipher.specs.Cipher as Cipher;
ghost use Rattle.sbox.specs.Box as Box;
ghost use Rattle.lengths.specs.Lengths.{boxes_of};

use crate::key::KeyWords;
use outcomes::Order;

// How many S-boxes a key expansion has.
fn key_boxes(nk: usize) -> usize
    ensures { result ≡ boxes_of nk }
{
    if nk == 4 {
        return 40;
    }
    if nk == 6 {
        return 32;
    }
    52
}

// How many bytes a key expansion draws.
pub fn schedule_need(key: KeyWords, d: Order) -> usize
    ensures { (result ≡ Cipher.schedule_need key.nk d) × (result ≤ 52 * Box.box_most) }
{
    key_boxes(key.nk) * sbox::boxes::box_need(d)
}

// How many bytes the rounds draw, either way: 16 S-boxes each.
pub fn encrypted_with_need(key: KeyWords, d: Order) -> usize
    ensures { (result ≡ Cipher.encrypted_with_need key.nk d) × (result ≤ 224 * Box.box_most) }
{
    16 * (key.nk + 6) * sbox::boxes::box_need(d)
}

// How many bytes an encryption or decryption draws, with its key expansion.
pub fn cipher_need(key: KeyWords, d: Order) -> usize
    ensures { result ≡ Cipher.cipher_need key.nk d }
{
    schedule_need(key, d) + encrypted_with_need(key, d)
}
