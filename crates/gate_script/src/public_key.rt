ghost use Rattle.std.specs.Prelude.{◌≡◌};
ghost use Rattle.gate_script.specs.Templates.{is_public_key};

/// Whether the bytes have a public key's size for their first byte: 33 after 2 or 3, 65 after 4, 6 or 7.
pub fn is_public_key(bytes: &[u8]) -> bool
    ensures { result ≡ is_public_key bytes.now }
{
    match bytes.first() {
        Some(2 | 3) => bytes.len() == 33,
        Some(4 | 6 | 7) => bytes.len() == 65,
        _ => false,
    }
}
