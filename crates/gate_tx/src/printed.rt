ghost use Rattle.std.specs.Prelude.{◌≡◌};
ghost use Rattle.gate_tx.specs.Ids.{id_text, read_id};

/// The hex digits of an id, its last byte first.
pub(crate) fn digits_of(mut hash: [u8; 32]) -> [u8; 64]
    ensures { result ≡ id_text hash }
{
    hash.reverse();
    let mut digits = [0; 64];
    let _ = hex::encode_to_slice(hash.as_slice(), &mut digits);
    digits
}

/// The id that 64 hex digits of either case print, its last byte first.
#[tactic(auto, unfolding(crate::specs::Ids::read_id))]
pub(crate) fn hash_of(text: &str) -> Option<[u8; 32]>
    ensures { result ≡ read_id text.now }
{
    let mut hash = [0; 32];
    match hex::decode_to_slice(text.as_bytes(), &mut hash) {
        Ok(()) => {
            hash.reverse();
            Some(hash)
        }
        Err(_) => None,
    }
}
