//! Bitcoin's first block: its header, its transaction's id, and cuts of its bytes.
use gate_block::read_block;
use gate_chain::{Block, ChainDenial, ChainFault};
use std::alloc::Global;
use std::test::Fail;

const GENESIS: &str =
    "0100000000000000000000000000000000000000000000000000000000000000000000003ba3edfd7a7b12b27ac72c3e67768f617fc81bc3888a51323a9fb8aa4b1e5e4a29ab5f49ffff001d1dac2b7c0101000000010000000000000000000000000000000000000000000000000000000000000000ffffffff4d04ffff001d0104455468652054696d65732030332f4a616e2f32303039204368616e63656c6c6f72206f6e206272696e6b206f66207365636f6e64206261696c6f757420666f722062616e6b73ffffffff0100f2052a01000000434104678afdb0fe5548271967f1a67130b7105cd6a828e03909a67962e0ea1f61deb649f6bc3f4cef38c4f35504e51ec112de5c384df7ba0b8d578a4c702b6bf11d5fac00000000";

/// A list of blocks of which most do not parse takes little room.
#[test]
fn a_block_is_a_pointer(rt: HostRuntime) {
    assert!(rt; std::mem::size_of::<Option<Block>>() <= 16);
}

/// Whether a block is Bitcoin's first, which has the one transaction that others print as this.
fn is_the_first(alloc: Global, block: &Block) -> Result<bool, Fail> {
    let [coinbase] = block.transactions() else {
        return Ok(false);
    };
    let txid = coinbase.get().txid();
    let printed = format!(in alloc; "{txid}")?;
    Ok(
        printed.as_str() == "4a5e1e4baab89f3a32518a88c31bc87f618f76673e2cc77ab2127b7afdeda33b"
            && block.header().time() == 1_231_006_505
            && block.header().as_bytes().last() == Some(&0x7c),
    )
}

#[test]
fn the_first_block_is_read(rt: HostRuntime) -> Result<(), Fail> {
    let bytes = hex::decode(rt.alloc(), GENESIS)?;
    let block = read_block(rt.alloc(), &bytes)?;
    assert!(rt; is_the_first(rt.alloc(), &block)?);
    Ok(())
}

/// What is wrong with the first block if its bytes are cut at `end` and others follow.
fn fault_of(alloc: Global, end: usize, more: &[u8]) -> Result<Option<ChainFault>, Fail> {
    let mut bytes = hex::decode(alloc, GENESIS)?;
    bytes.truncate(end);
    bytes.extend_from_slice(more)?;
    Ok(read_block(alloc, &bytes).err())
}

#[test]
fn cuts_of_a_block_do_not_parse(rt: HostRuntime) -> Result<(), Fail> {
    let cuts: [(usize, &[u8], bool); 4] = [
        (284, &[], false),
        (285, &[0], false),
        (79, &[], false),
        // A header, and no transactions.
        (80, &[0], true),
    ];
    for (end, more, parses) in cuts {
        let fault = fault_of(rt.alloc(), end, more)?;
        let wanted = if parses {
            None
        } else {
            Some(ChainFault::Denied(ChainDenial::BlockDecode))
        };
        assert!(rt; fault == wanted, "{end}");
    }
    Ok(())
}
