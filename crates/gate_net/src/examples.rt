//! The definitions at texts and entries from outside, by computation.
ghost use Rattle.gate_net.specs.Examples.{AddressTexts, EntryTexts};

/// Addresses of RFC 4291 and RFC 5952, and the flags of entries.
pub(crate) fn small_texts()
    ensures addresses { AddressTexts }
    ensures entries { EntryTexts }
{}
