//! A PSBT as it is passed on: its bytes, or base64.
ghost use Rattle.std.specs.Prelude.{◌≡◌, IfOk};
ghost use Rattle.std.specs.List.{filter};
ghost use Rattle.gate_psbt.specs.Encoding.{DecodesInto, decoded_of, is_ink};

use crate::fault::{PartFault, Place, PsbtFault};
use base64::DecodeAllocError;
use base64::engine::general_purpose::STANDARD;
use gate_bytes::Memory;
use std::alloc::Global;

/// Whether a byte is no white space.
fn is_ink(byte: u8) -> bool
    ensures { result ≡ is_ink byte }
{
    byte != b' ' && byte != b'\t' && byte != b'\n' && byte != b'\r'
}

/// A text without its white space.
fn without_space(alloc: Global, text: &[u8]) -> Result<Vec<u8>, Memory>
    ensures { IfOk result (λ ink. ink.items ≡ filter is_ink text.now) }
{
    let mut ink = Vec::new(alloc);
    for byte in text {
        if is_ink(*byte) {
            ink.push(*byte)?;
        }
    }
    Ok(ink)
}

/// The bytes of a PSBT that is given by its bytes or in base64, with white space anywhere.
#[tactic(auto, unfolding(crate::specs::Encoding::decoded_of))]
pub fn decode_psbt(alloc: Global, text: &[u8]) -> Result<Vec<u8>, PsbtFault>
    ensures exact { DecodesInto result (decoded_of text.now) }
{
    if text.starts_with(b"psbt\xff") {
        return Ok(Vec::from_slice(alloc, text)?);
    }
    let digits = without_space(alloc, text)?;
    match STANDARD.decode(alloc, &digits) {
        Ok(bytes) => Ok(bytes),
        Err(DecodeAllocError::OutOfMemory) => Err(PsbtFault::Memory),
        Err(_) => Err(PsbtFault::At(Place::Whole, PartFault::Encoding)),
    }
}
