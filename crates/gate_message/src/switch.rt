//! What the operator turns on and off.

/// A switch, named by what holds while it is on.
#[derive(Clone, Copy, PartialEq, Eq)]
pub enum Switch {
    /// Bloom filters are on, with which every peer may ask for a listing (BIP 35, BIP 111).
    Bloom,
    /// The node has uploaded as much as it may.
    Upload,
    /// The node has uploaded as much of old blocks as it may.
    Historic,
    /// The node is in its initial block download.
    Download,
}
