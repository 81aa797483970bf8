//! Hash tables in which all ids collide.
use std::hash::{BuildHasher, Hasher};

/// Gives each id the same hash, as ids would have that a peer chose under keys that it knew: that costs time, and changes no
/// reply.
#[derive(Clone, Copy)]
pub(crate) struct Colliding;

impl Hasher for Colliding {
    ghost write = { λ hasher _. hasher };

    ghost finish = { λ _. 0 };

    fn finish(&self) -> u64 {
        0
    }

    fn write(&mut self, _bytes: &[u8]) {}
}

impl BuildHasher for Colliding {
    type Hasher = Colliding;

    ghost build_hasher = { λ hasher. hasher };

    fn build_hasher(&self) -> Colliding {
        *self
    }
}
