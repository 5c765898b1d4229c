// The routes of a block in shares through the library: encryption by the single call; encryption by two calls, which prepare the key and start from
// the prepared keys, and which by document 02, wish 1, give the same shares; decryption; and the round trip of wish 2 at one order, which
// decrypts the shares of an encryption.
ghost use Rattle.std.specs.Prelude.{◌≡◌, ◌+◌, ◌*◌, ◌<◌, ◌≤◌, ◌⊎◌, IfSome, MatchOption, length, suc};

use vector_lines::answers;
use vector_lines::answers::{Came, Failure};
use vector_lines::forms::Kind;

// How long a string of that size is in shares, where there is room for them.
pub fn in_shares(order: usize, size: usize) -> Option<usize>
    ensures { MatchOption result ((8 < order) ⊎ (240 < size)) (λ n. (n ≡ suc order * size) × (n ≤ 2160)) }
{
    if 8 < order || 240 < size {
        return None;
    }
    Some((order + 1) * size)
}

// The front of room where a string of that size lies in shares; an empty one where there is no room for them.
pub fn shares_in(room: &mut [u8], order: usize, size: usize) -> &mut [u8]
    ensures room { length result.now ≤ length room.old }
    ensures whole { order ≤ 8 → size ≤ 240 → suc order * size ≤ length room.old → length result.now ≡ suc order * size }
{
    front(room, in_shares(order, size))
}

fn front(room: &mut [u8], n: Option<usize>) -> &mut [u8]
    ensures room { length result.now ≤ length room.old }
    ensures whole { IfSome n (λ m. m ≤ length room.old → length result.now ≡ m) }
{
    match n {
        Some(n) if n <= room.len() => &mut room[..n],
        _ => &mut [],
    }
}

// How long the round keys are of a key of that length in shares: 16·(Nk + 7) bytes for each 4·Nk of a share. No key in shares has more than 288.
fn expanded(order: usize, length: usize) -> Option<usize>
    ensures { MatchOption result ((288 < length) ⊎ (8 < order)) (λ n. (n ≡ 4 * length + suc order * 112) × (n ≤ 4096)) }
{
    if 288 < length {
        return None;
    }
    Some(4 * length + in_shares(order, 112)?)
}

// A block and its key in shares, and the tape of the calls on it.
#[derive(Clone, Copy)]
pub struct Block<'a> {
    pub order: usize,
    pub key: &'a [u8],
    pub input: &'a [u8],
    pub tape: &'a [u32],
}

impl Block<'_> {
    fn encrypt(self, output: &mut [u8]) -> Came {
        answers::of(aes::encrypt(self.order, self.key, self.input, self.tape, output))
    }

    fn decrypt(self, output: &mut [u8]) -> Came {
        answers::of(aes::decrypt(self.order, self.key, self.input, self.tape, output))
    }

    // Two calls as the single call: its answer, if the output is its shares and the two took as much together.
    fn as_single(self, output: &[u8], taken: usize) -> Came {
        let mut room = io::buffer();
        let whole = shares_in(&mut room, self.order, 16);
        let single = self.encrypt(whole);
        if single.is_ok_and(|n| n == taken) && output == whole {
            return single;
        }
        Err(Failure::Unmade)
    }

    // Encryption from prepared keys, on the tape that the preparation left. Where both calls are refused, the second one's answer stands.
    fn prepared(self, output: &mut [u8]) -> Came {
        let mut room = io::buffer();
        let keys = front(&mut room, expanded(self.order, self.key.len()));
        let first = answers::of(aes::prepare(self.order, self.key, self.tape, keys));
        let rest = answers::rest(self.tape, first);
        let second = answers::of(aes::encrypt_prepared(
            self.order, keys, self.input, rest, output,
        ))?;
        self.as_single(output, first?.wrapping_add(second))
    }

    // An encryption, and the decryption of its shares on the tape that it left. Where both calls are refused, the second one's answer stands.
    fn trip(self, output: &mut [u8]) -> Came {
        let mut room = io::buffer();
        let ciphers = shares_in(&mut room, self.order, 16);
        let first = self.encrypt(ciphers);
        let back = Block {
            input: ciphers,
            tape: answers::rest(self.tape, first),
            ..self
        };
        let second = back.decrypt(output)?;
        Ok(first?.wrapping_add(second))
    }

    // The route of that kind.
    pub fn run(self, kind: Kind, output: &mut [u8]) -> Came {
        match kind {
            Kind::Encrypt => self.encrypt(output),
            Kind::Prepared => self.prepared(output),
            Kind::Decrypt => self.decrypt(output),
            Kind::Trip => self.trip(output),
            Kind::Keys | Kind::Lengths | Kind::Read => Err(Failure::Unmade),
        }
    }
}
