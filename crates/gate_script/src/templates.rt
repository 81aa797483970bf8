/// The form of an output's script (Bitcoin Core 22.0, `TxoutType`).
#[derive(Clone, Copy, PartialEq, Eq)]
pub enum Template {
    /// Pay to a script hash (BIP 16).
    ScriptHash,
    /// A witness program of version 0 with a key hash of 20 bytes (BIP 141).
    WitnessV0Key,
    /// A witness program of version 0 with a script hash of 32 bytes (BIP 141).
    WitnessV0Script,
    /// A witness program of version 1 with an output key of 32 bytes (BIP 341).
    Taproot,
    /// A witness program of another version, or of another length.
    WitnessUnknown,
    /// OP_RETURN and pushes.
    NullData,
    /// Pay to a public key.
    Key,
    /// Pay to a public key's hash.
    KeyHash,
    /// `required` signatures of `keys` public keys.
    Multisig { required: u8, keys: u8 },
    /// None of these.
    Nonstandard,
}
