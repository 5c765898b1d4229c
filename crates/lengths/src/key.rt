// The size of a key. FIPS 197 has three.
ghost use Rattle.std.specs.Prelude.{◌≡◌, ◌≤◌, ◌%◌};

// How many words a key has, FIPS 197's Nk: 4, 6 or 8, as every place that makes one proves.
#[derive(Clone, Copy)]
pub struct KeyWords {
    pub nk: usize,
    pub ghost sized: { (4 ≤ nk) × (nk ≤ 8) × (nk % 2 ≡ 0) },
}
