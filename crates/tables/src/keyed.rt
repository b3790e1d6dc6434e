// Records that are for a key, and the search for the first of them.
ghost use Rattle.std.specs.Prelude.{◌≡◌, Bool};
ghost use Rattle.std.specs.List.{find, position};

// A record that a key may be looked up by.
pub trait Keyed<K> {
    ghost fits: { Self → K → Bool };

    fn is_for(&self, key: &K) -> bool
        ensures { result ≡ fits self.now key.now };
}

// Where the first record for a key stands.
pub fn first_place<K, R: Keyed<K>>(records: &[R], key: &K) -> Option<usize>
    ensures { result ≡ position (λ r. R.Keyed.fits r key.now) records.now }
{
    records.iter().position(|record| record.is_for(key))
}

// The first record for a key.
pub fn find<K, R: Keyed<K> + Copy>(records: &[R], key: &K) -> Option<R>
    ensures { result ≡ find (λ r. R.Keyed.fits r key.now) records.now }
{
    records.iter().find(|record| record.is_for(key)).copied()
}
