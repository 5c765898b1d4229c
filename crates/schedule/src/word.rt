// One word of the key expansion over shares, in a buffer of m bytes for each share. The temporary word stands in t, 4 bytes for each share.
ghost use Rattle.std.specs.Prelude.{◌≡◌, ◌++◌, suc, ◌+◌, ◌*◌, ◌-◌, ◌/◌, ◌≤◌, length, take, drop};
ghost use Rattle.xor.specs.Sums.{xors};
ghost use Rattle.gf256.specs.Field.{power};
ghost use Rattle.tape_words.specs.Words.{bytes_of};
ghost use Rattle.shares.specs.Strings.{parts, laid};
ghost use Rattle.cipher.specs.Fips197.{Kind, kind, word};
ghost use Rattle.cipher.specs.States.{each_by};
ghost use Rattle.cipher.specs.Cipher.{subs_need, in_word, words, masked_temp, temp_need};
ghost use Rattle.schedule.specs.Stored.{stored, word_stored, StoreFits, TurnedFits, TempFits, WordFits};

use buffers::each::each_share;
use gf256::Tables;
use outcomes::Order;
use shares::bytes::put;

// The first byte of Rcon[j]: 02 to the power j - 1.
fn rcon(j: usize) -> u8
    requires { 1 ≤ j }
    ensures { result ≡ power 2 (j - 1) }
{
    (1..j).fold(1, |r, _| gf256::double(r))
}

// Word w of each share.
fn fetch(d: Order, m: usize, w: usize, keys: &[u8], t: &mut [u8])
    requires { (4 * w + 4 ≤ m) × (length keys.now ≡ suc d * m) × (length t.old ≡ suc d * 4) }
    ensures { t.new ≡ laid (words (parts (suc d) m keys.now) w) }
{
    each_share(d, 4, t, |i, word| {
        let b = i * m + 4 * w;
        put(&keys[b..b + 4], word);
    });
}

// Word i of one share k, from its word i - nk and the temporary word t.
fn store_word(nk: usize, i: usize, t: &[u8], k: &mut [u8])
    requires { (1 ≤ nk) × (nk ≤ i) × (4 * i + 4 ≤ length k.old) × (length t.now ≡ 4) }
    ensures { k.new
        ≡ take (4 * i) k.old
        ++ (xors (word k.old (i - nk)) t.now ++ drop (4 * i + 4) k.old) }
{
    // Kept: an index, since the word stands at one place of k and is made from another.
    for (b, byte) in t.iter().enumerate() {
        k[4 * i + b] = k[4 * (i - nk) + b] ^ *byte;
    }
}

// Word i of each share.
fn store_all(nk: usize, d: Order, m: usize, i: usize, t: &[u8], keys: &mut [u8])
    requires { StoreFits nk d m i keys.old × (length t.now ≡ suc d * 4) }
    ensures { keys.new
        ≡ laid (each_by (stored nk i t.now) 0 (parts (suc d) m keys.old)) }
{
    each_share(d, m, keys, |j, share| {
        let b = j * 4;
        store_word(nk, i, &t[b..b + 4], share);
    });
}

// The temporary word where i is a multiple of nk: S-boxes, RotWord, and Rcon into share 0. Answers with how many words were drawn.
fn turned_temp(tables: &Tables, d: Order, j: usize, tape: &[u32], t: &mut [u8]) -> usize
    requires { TurnedFits d j (bytes_of tape.now) t.old }
    ensures { (4 * result ≡ subs_need d in_word)
        × (t.new ≡ laid (masked_temp d Kind.turned j (parts (suc d) 4 t.old) (bytes_of tape.now))) }
{
    let drawn = substitution::boxes::sub_word(tables, d, tape, t);
    linear::steps::rot_all(d, t);
    t[0] = t[0] ^ rcon(j);
    drawn
}

// The temporary word as word i wants it. Answers with how many words were drawn.
fn make_temp(tables: &Tables, nk: usize, d: Order, i: usize, tape: &[u32], t: &mut [u8]) -> usize
    requires { TempFits nk d i (bytes_of tape.now) t.old }
    ensures { (4 * result ≡ temp_need d (kind nk i))
        × (t.new ≡ laid (masked_temp d (kind nk i) (i / nk) (parts (suc d) 4 t.old) (bytes_of tape.now))) }
{
    let left = i % nk;
    if left == 0 {
        return turned_temp(tables, d, i / nk, tape, t);
    }
    if nk > 6 {
        if left == 4 {
            return substitution::boxes::sub_word(tables, d, tape, t);
        }
    }
    0
}

// Word i in all shares. Answers with how many words were drawn.
pub fn next_word(
    tables: &Tables,
    nk: usize,
    d: Order,
    m: usize,
    i: usize,
    tape: &[u32],
    keys: &mut [u8],
) -> usize
    requires { WordFits nk d m i keys.old (bytes_of tape.now) }
    ensures { (4 * result ≡ temp_need d (kind nk i))
        × (keys.new ≡ word_stored nk d m i keys.old (bytes_of tape.now)) }
{
    let mut room = [0u8; 36];
    let n = d.shares() * 4;
    let t = &mut room[0..n];
    fetch(d, m, i - 1, keys, t);
    let drawn = make_temp(tables, nk, d, i, tape, t);
    store_all(nk, d, m, i, t, keys);
    drawn
}
