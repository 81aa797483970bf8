//! The keys of the hash tables, which the host draws at random.
use std::io;
use std::random::RandomSource;

/// Two random numbers. Peers that don't know them can't make txids collide in a hash table.
#[derive(Clone, Copy)]
#[repr(C)]
pub struct Keys {
    pub first: u64,
    pub second: u64,
}

impl RandomSource for Keys {
    fn fill_bytes(&self, buf: &mut [u8]) -> io::Result<()> {
        let first = self.first.to_le_bytes();
        let second = self.second.to_le_bytes();
        for (slot, byte) in buf.iter_mut().zip(first.iter().chain(second.iter())) {
            *slot = *byte;
        }
        Ok(())
    }
}
