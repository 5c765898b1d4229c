// The field's two products on all bytes: by logs and antilogs, as the masked routines multiply, and by shifts from the top bit.

use gf256::Tables;
use vector_lines::counts;
use vector_lines::counts::Tally;

// For how many of the 65,536 pairs of bytes the two differ.
fn count_different(tables: &Tables) -> usize {
    let differs = |pair: &u16| {
        let [a, b] = pair.to_be_bytes();
        tables.times(a, b) != gf256::times(a, b)
    };
    (0..=u16::MAX).filter(differs).count()
}

// The first comparisons of all.
pub fn compare() -> Tally {
    let tables = Tables::new();
    let different = count_different(&tables) as u64;
    text::print(b"products of all bytes, by logs and by shifts: ");
    counts::print(65536, different);
    Tally {
        compared: 65536,
        different,
        ..Tally::default()
    }
}
