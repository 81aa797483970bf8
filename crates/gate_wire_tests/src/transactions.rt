//! Transactions from public documents, and bytes that are none.
use gate_bytes::Copied;
use gate_tx::{Identified, TxFault, Txid, Wtxid, read_tx};
use std::alloc::Global;
use std::test::Fail;

/// A transaction from public documents, and what other programs say of it.
#[derive(Clone, Copy)]
struct Vector {
    text: &'static str,
    txid: &'static str,
    wtxid: &'static str,
    stripped_size: usize,
    full_size: usize,
    weight: usize,
}

/// The coinbase of the genesis block.
const GENESIS: Vector = Vector {
    text: "01000000010000000000000000000000000000000000000000000000000000000000000000ffffffff4d04ffff001d0104455468652054696d65732030332f4a616e2f32303039204368616e63656c6c6f72206f6e206272696e6b206f66207365636f6e64206261696c6f757420666f722062616e6b73ffffffff0100f2052a01000000434104678afdb0fe5548271967f1a67130b7105cd6a828e03909a67962e0ea1f61deb649f6bc3f4cef38c4f35504e51ec112de5c384df7ba0b8d578a4c702b6bf11d5fac00000000",
    txid: "4a5e1e4baab89f3a32518a88c31bc87f618f76673e2cc77ab2127b7afdeda33b",
    wtxid: "4a5e1e4baab89f3a32518a88c31bc87f618f76673e2cc77ab2127b7afdeda33b",
    stripped_size: 204,
    full_size: 204,
    weight: 816,
};

/// The coinbase of block 1.
const BLOCK_ONE: Vector = Vector {
    text: "01000000010000000000000000000000000000000000000000000000000000000000000000ffffffff0704ffff001d0104ffffffff0100f2052a0100000043410496b538e853519c726a2c91e61ec11600ae1390813a627c66fb8be7947be63c52da7589379515d4e0a604f8141781e62294721166bf621e73a82cbf2342c858eeac00000000",
    txid: "0e3e2357e806b6cdb1f70b54c3a3a17b6714ee1f0e68bebb44a74b1efd512098",
    wtxid: "0e3e2357e806b6cdb1f70b54c3a3a17b6714ee1f0e68bebb44a74b1efd512098",
    stripped_size: 134,
    full_size: 134,
    weight: 536,
};

/// The first payment, in block 170.
const FIRST_PAYMENT: Vector = Vector {
    text: "0100000001c997a5e56e104102fa209c6a852dd90660a20b2d9c352423edce25857fcd3704000000004847304402204e45e16932b8af514961a1d3a1a25fdf3f4f7732e9d624c6c61548ab5fb8cd410220181522ec8eca07de4860a4acdd12909d831cc56cbbac4622082221a8768d1d0901ffffffff0200ca9a3b00000000434104ae1a62fe09c5f51b13905f07f06b99a2f7159b2225f374cd378d71302fa28414e7aab37397f554a7df5f142c21c1b7303b8a0626f1baded5c72a704f7e6cd84cac00286bee0000000043410411db93e1dcdb8a016b49840f8c53bc1eb68a382e97b1482ecad7b148a6909a5cb2e0eaddfb84ccf9744464f82e160bfa9b8b64f9d4c03f999b8643f656b412a3ac00000000",
    txid: "f4184fc596403b9d638783cf57adfe4c75c605f6356fbc91338530e9831e9e16",
    wtxid: "f4184fc596403b9d638783cf57adfe4c75c605f6356fbc91338530e9831e9e16",
    stripped_size: 275,
    full_size: 275,
    weight: 1100,
};

/// BIP 143, native P2WPKH: a bare input and a witness input.
const NATIVE_P2WPKH: Vector = Vector {
    text: "01000000000102fff7f7881a8099afa6940d42d1e7f6362bec38171ea3edf433541db4e4ad969f00000000494830450221008b9d1dc26ba6a9cb62127b02742fa9d754cd3bebf337f7a55d114c8e5cdd30be022040529b194ba3f9281a99f2b1c0a19c0489bc22ede944ccf4ecbab4cc618ef3ed01eeffffffef51e1b804cc89d182d279655c3aa89e815b1b309fe287d9b2b55d57b90ec68a0100000000ffffffff02202cb206000000001976a9148280b37df378db99f66f85c95a783a76ac7a6d5988ac9093510d000000001976a9143bde42dbee7e4dbe6a21b2d50ce2f0167faa815988ac000247304402203609e17b84f6a7d30c80bfa610b5b4542f32a8a0d5447a12fb1366d7f01cc44a0220573a954c4518331561406f90300e8f3358f51928d43c212a8caed02de67eebee0121025476c2e83188368da1ff3e292e7acafcdb3566bb0ad253f62fc70f07aeee635711000000",
    txid: "e8151a2af31c368a35053ddd4bdb285a8595c769a3ad83e0fa02314a602d4609",
    wtxid: "c36c38370907df2324d9ce9d149d191192f338b37665a82e78e76a12c909b762",
    stripped_size: 233,
    full_size: 343,
    weight: 1042,
};

/// BIP 143, P2SH-P2WPKH.
const NESTED_P2WPKH: Vector = Vector {
    text: "01000000000101db6b1b20aa0fd7b23880be2ecbd4a98130974cf4748fb66092ac4d3ceb1a5477010000001716001479091972186c449eb1ded22b78e40d009bdf0089feffffff02b8b4eb0b000000001976a914a457b684d7f0d539a46a45bbc043f35b59d0d96388ac0008af2f000000001976a914fd270b1ee6abcaea97fea7ad0402e8bd8ad6d77c88ac02473044022047ac8e878352d3ebbde1c94ce3a10d057c24175747116f8288e5d794d12d482f0220217f36a485cae903c713331d877c1f64677e3622ad4010726870540656fe9dcb012103ad1d8e89212f0b92c74d23bb710c00662ad1470198ac48c43f7d6f93a2a2687392040000",
    txid: "ef48d9d0f595052e0f8cdcf825f7a5e50b6a388a81f206f3f4846e5ecd7a0c23",
    wtxid: "680f483b2bf6c5dcbf111e69e885ba248a41a5e92070cfb0afec3cfc49a9fabb",
    stripped_size: 142,
    full_size: 251,
    weight: 677,
};

/// One input with a witness of 72 and 33 bytes, and one output.
const ONE_TO_ONE: Vector = Vector {
    text: "0200000000010111111111111111111111111111111111111111111111111111111111111111110000000000fdffffff013286010000000000160014222222222222222222222222222222222222222202483030303030303030303030303030303030303030303030303030303030303030303030303030303030303030303030303030303030303030303030303030303030303030303030302102020202020202020202020202020202020202020202020202020202020202020200000000",
    txid: "5ab0eb89aa597c4c79ebb7cd83e361997309eb27e186bc95d794fe37e6453fc2",
    wtxid: "b9dbe717407780b8e07cc6a0baecde192da24339633211d74920ca0964bb090f",
    stripped_size: 82,
    full_size: 192,
    weight: 438,
};

fn bytes_of(alloc: Global, text: &str) -> Result<Vec<u8>, Fail> {
    Ok(hex::decode(alloc, text)?)
}

/// Whether the ids that were hashed from the bytes are those that other programs print.
fn has_ids(read: &Identified, vector: &Vector) -> bool {
    Txid::read(vector.txid) == Some(read.txid()) && Wtxid::read(vector.wtxid) == Some(read.wtxid())
}

fn has_sizes(read: &Identified, vector: &Vector) -> bool {
    let transaction = read.transaction();
    read.weight() == vector.weight
        && transaction.weight() == vector.weight
        && transaction.stripped_size() == vector.stripped_size
        && transaction.full_size() == vector.full_size
        && transaction.has_witness() == (vector.full_size != vector.stripped_size)
}

/// Whether a copy of a transaction is written as it was read.
fn is_written_back(alloc: Global, read: &Identified, bytes: &[u8]) -> Result<bool, Fail> {
    let copy = read.transaction().copy(alloc)?;
    Ok(copy.write_tx(alloc)?.as_slice() == bytes)
}

fn strips(alloc: Global, read: &Identified, size: usize) -> Result<bool, Fail> {
    Ok(read.transaction().write_stripped(alloc)?.len() == size)
}

/// Whether a transaction, read from these bytes, is all that other programs say of it.
fn is_as_told(
    alloc: Global,
    read: &Identified,
    bytes: &[u8],
    vector: &Vector,
) -> Result<bool, Fail> {
    Ok(
        has_sizes(read, vector)
            && has_ids(read, vector)
            && is_written_back(alloc, read, bytes)?
            && strips(alloc, read, vector.stripped_size)?,
    )
}

fn is_read_as_told(alloc: Global, bytes: &[u8], vector: &Vector) -> Result<bool, Fail> {
    let read = Identified::read(alloc, bytes)?;
    let told = is_as_told(alloc, &read, bytes, vector);
    drop(read);
    told
}

fn holds(alloc: Global, vector: &Vector) -> Result<bool, Fail> {
    let bytes = bytes_of(alloc, vector.text)?;
    let told = is_read_as_told(alloc, &bytes, vector);
    drop(bytes);
    told
}

const VECTORS: [&Vector; 6] = [
    &GENESIS,
    &BLOCK_ONE,
    &FIRST_PAYMENT,
    &NATIVE_P2WPKH,
    &NESTED_P2WPKH,
    &ONE_TO_ONE,
];

#[test]
fn public_transactions_have_their_ids(rt: HostRuntime) -> Result<(), Fail> {
    for vector in VECTORS {
        assert!(rt; holds(rt.alloc(), vector)?, "{}", vector.txid);
    }
    Ok(())
}

fn has_fault(alloc: Global, bytes: &[u8], fault: TxFault) -> bool {
    let read = read_tx(alloc, bytes);
    let found = matches!(&read, Err(found) if *found == fault);
    drop(read);
    found
}

fn is_refused(alloc: Global, text: &str, fault: TxFault) -> Result<bool, Fail> {
    let bytes = bytes_of(alloc, text)?;
    let refused = has_fault(alloc, &bytes, fault);
    drop(bytes);
    Ok(refused)
}

/// A spend up to its witness, whose one list is empty.
const EMPTY_WITNESS: &str =
    "02000000000101111111111111111111111111111111111111111111111111111111111111111100000000\
               00fdffffff013286010000000000160014222222222222222222222222222222222222222200";

/// Texts, and the first fault of each.
const FAULTS: [(&str, TxFault); 11] = [
    ("", TxFault::Short),
    ("02000000", TxFault::Short),
    ("01000000fe00000002", TxFault::Short),
    ("01000000fdfc00", TxFault::NotCanonical),
    ("01000000fe01000002", TxFault::TooLarge),
    ("010000000002", TxFault::BadFlag),
    ("010000000001", TxFault::Short),
    ("01000000000100000000", TxFault::EmptyWitness),
    ("0100000000000000000000", TxFault::Trailing),
    ("010000000000000000", TxFault::Short),
    (EMPTY_WITNESS, TxFault::EmptyWitness),
];

#[test]
fn first_fault_from_the_left(rt: HostRuntime) -> Result<(), Fail> {
    for (text, fault) in &FAULTS {
        assert!(rt; is_refused(rt.alloc(), text, *fault)?, "{text}");
    }
    Ok(())
}
