ghost use Rattle.std.specs.Prelude.{◌≡◌, ◌≤◌, ◌++◌, length, take, drop, slice_range};
ghost use Rattle.sha2.specs.Sha256.{sha256};
ghost use Rattle.gate_tx.specs.Text.{stripped, extended, text};

use crate::transaction::Transaction;
use sha2::{Digest, Sha256};

/// SHA-256 of SHA-256 of the bytes.
pub(crate) fn double_hash(bytes: &[u8]) -> [u8; 32]
    ensures { result ≡ sha256 (sha256 bytes.now) }
{
    let first = Sha256::digest(bytes);
    Sha256::digest(first)
}

/// The hash of the form without witnesses, from the text and its hash.
pub(crate) fn hash_of_stripped(transaction: &Transaction, bytes: &[u8], hash: [u8; 32]) -> [u8; 32]
    requires spelled { bytes.now ≡ text transaction.now }
    requires hashed { hash ≡ sha256 (sha256 bytes.now) }
    ensures { result ≡ sha256 (sha256 (stripped transaction.now)) }
{
    if transaction.has_witness() {
        hash_without_witnesses(transaction, bytes)
    } else {
        hash
    }
}

/// The hash of the form without witnesses, from the form with flag 1: of the bytes of its version,
/// of the lists behind marker and flag, and of the locktime behind the witnesses.
fn hash_without_witnesses(transaction: &Transaction, bytes: &[u8]) -> [u8; 32]
    requires { bytes.now ≡ extended transaction.now }
    ensures { result ≡ sha256 (sha256 (stripped transaction.now)) }
{
    let lists_end = transaction.stripped_size() - 2;
    let locktime = bytes.len() - 4;
    double_hash_of_pieces(bytes, lists_end, locktime)
}

/// The hash of the first four bytes, of those from the seventh up to `lists_end`, and of those from
/// `locktime` on.
fn double_hash_of_pieces(bytes: &[u8], lists_end: usize, locktime: usize) -> [u8; 32]
    requires lists { 6 ≤ lists_end }
    requires witnesses { lists_end ≤ locktime }
    requires within { locktime ≤ length bytes.now }
    ensures { result ≡ sha256 (sha256 (take 4 bytes.now ++ (slice_range bytes.now 6 lists_end ++ drop locktime bytes.now))) }
{
    let mut hasher = Sha256::new();
    hasher.update(&bytes[..4]);
    hasher.update(&bytes[6..lists_end]);
    hasher.update(&bytes[locktime..]);
    Sha256::digest(hasher.finalize())
}
