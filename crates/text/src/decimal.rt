// Numbers in decimal.
ghost use Rattle.std.specs.Prelude.{◌≡◌, cond};
ghost use Rattle.text.specs.Decimal as Decimal;

// A number with one more digit behind it, where the character is one. A number above 99999 stays as it is: it is above every bound that is asked of
// a number here.
#[tactic(auto, unfolding(crate::specs::Decimal::is_decimal, crate::specs::Decimal::appended))]
fn appended(value: usize, c: u8) -> Option<usize>
    ensures { result ≡ cond (Decimal.is_decimal c) (Some (Decimal.appended value c)) None }
{
    match c {
        b'0'..=b'9' if 99999 < value => Some(value),
        b'0'..=b'9' => Some(value * 10 + (c - b'0') as usize),
        _ => None,
    }
}

// The number that text is, exact below 1000000. An empty text is none.
pub fn read(text: &[u8]) -> Option<usize>
    ensures { result ≡ Decimal.read text.now }
{
    if text.is_empty() {
        return None;
    }
    let mut n = 0;
    for c in text {
        n = appended(n, *c)?;
    }
    Some(n)
}
