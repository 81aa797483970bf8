use crate::entry::Entry;

/// A test that chooses entries.
pub trait Test {
    ghost use Rattle.std.specs.Prelude.{◌≡◌, Bool};
    ghost use Rattle.gate_pool.specs.Pool.{Admitted};

    ghost chosen: { Self → Admitted → Bool };

    fn chooses(&self, entry: &Entry) -> bool
        ensures { result ≡ chosen self.now entry.now };
}
