// Key expansion over shares, in a buffer of m bytes for each share, whose first 4 * nk are the key.
ghost use Rattle.std.specs.Prelude.{◌≡◌, map, suc, ◌*◌, ◌-◌, ◌≤◌, length, take};
ghost use Rattle.tape_words.specs.Words.{bytes_of};
ghost use Rattle.shares.specs.Strings.{parts, laid};
ghost use Rattle.cipher.specs.Cipher.{schedule_from, schedule_from_need, schedule, schedule_need};
ghost use Rattle.schedule.specs.Stored.{written, ExpandFits, ExpansionFits};

use buffers::each::each_share;
use gf256::Tables;
use outcomes::Order;
use shares::bytes::put;

// All words from nk on, ascending. Answers with how many words were drawn.
fn expand(
    tables: &Tables,
    nk: usize,
    d: Order,
    total: usize,
    tape: &[u32],
    keys: &mut [u8],
) -> usize
    requires { ExpandFits nk d total keys.old (bytes_of tape.now) }
    ensures { (4 * result ≡ schedule_from_need (total - nk) nk nk d)
        × (written d total total keys.new
        ≡ schedule_from (total - nk) nk nk d (written d total nk keys.old) (bytes_of tape.now)) }
{
    let m = 4 * total;
    // Kept: a word draws or doesn't by its number, and gets the tape from its own draw on (document 01).
    let mut at: usize = 0;
    for i in nk..total {
        at += crate::word::next_word(tables, nk, d, m, i, &tape[at..], keys);
    }
    at
}

// Each share of the key, of l bytes, to the front of each share of the buffer, of m bytes.
fn copy_key(d: Order, l: usize, m: usize, key: &[u8], keys: &mut [u8])
    requires { (l ≤ m) × (length key.now ≡ suc d * l) × (length keys.old ≡ suc d * m) }
    ensures { map (take l) (parts (suc d) m keys.new) ≡ parts (suc d) l key.now }
{
    each_share(d, m, keys, |i, share| {
        let a = i * l;
        put(&key[a..a + l], share);
    });
}

// The round keys in shares, share after share. Answers with how many words were drawn.
pub fn expand_core(
    tables: &Tables,
    nk: usize,
    d: Order,
    key: &[u8],
    tape: &[u32],
    keys: &mut [u8],
) -> usize
    requires { ExpansionFits nk d key.now keys.old (bytes_of tape.now) }
    ensures { (4 * result ≡ schedule_need nk d)
        × (keys.new ≡ laid (schedule nk d (parts (suc d) (4 * nk) key.now) (bytes_of tape.now))) }
{
    let total = 4 * (nk + 7);
    copy_key(d, 4 * nk, 4 * total, key, keys);
    expand(tables, nk, d, total, tape, keys)
}
