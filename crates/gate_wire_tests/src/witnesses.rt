//! Witnesses in the bytes of BIP 144.
use gate_tx::{Transaction, Witness, read_tx};
use std::alloc::Global;
use std::test::Fail;

/// A transaction of one input and one output, up to its witness.
const BEFORE: &str =
    "0200000000010111111111111111111111111111111111111111111111111111111111111111110000000000fdffffff0132860100000000001600142222222222222222222222222222222222222222";

/// A witness of equal items, and how BIP 144 spells it: the count of items, and before each item the count of its
/// bytes.
#[derive(Clone, Copy)]
struct Case {
    items: u16,
    size: u16,
    count: &'static str,
    size_count: &'static str,
}

const CASES: [Case; 6] = [
    Case {
        items: 1,
        size: 0,
        count: "01",
        size_count: "00",
    },
    Case {
        items: 1000,
        size: 0,
        count: "fde803",
        size_count: "00",
    },
    Case {
        items: 2,
        size: 72,
        count: "02",
        size_count: "48",
    },
    Case {
        items: 1,
        size: 520,
        count: "01",
        size_count: "fd0802",
    },
    Case {
        items: 1,
        size: 10_001,
        count: "01",
        size_count: "fd1127",
    },
    Case {
        items: 253,
        size: 253,
        count: "fdfd00",
        size_count: "fdfd00",
    },
];

/// An item of `size` bytes of 7.
fn item(alloc: Global, size: u16) -> Result<Vec<u8>, Fail> {
    Ok(vec![in alloc; 7u8; usize::from(size)]?)
}

/// The text of a transaction with the witness of a case.
fn text_of(alloc: Global, case: &Case) -> Result<Vec<u8>, Fail> {
    let item = item(alloc, case.size)?;
    let mut text = hex::decode(alloc, BEFORE)?;
    text.extend_from_slice(&hex::decode(alloc, case.count)?)?;
    let size = hex::decode(alloc, case.size_count)?;
    for _ in 0..case.items {
        text.extend_from_slice(&size)?;
        text.extend_from_slice(&item)?;
    }
    text.extend_from_slice(&[0; 4])?;
    Ok(text)
}

/// The witness of a case, item by item.
fn pushed(alloc: Global, case: &Case) -> Result<Witness, Fail> {
    let item = vec![in alloc; 7u8; usize::from(case.size)]?;
    let mut witness = Witness::new(alloc);
    for _ in 0..case.items {
        witness.push(&item)?;
    }
    Ok(witness)
}

/// Whether a transaction's one witness is that of a case.
fn has_witness(alloc: Global, read: &Transaction, case: &Case) -> Result<bool, Fail> {
    let [input] = read.inputs() else {
        return Ok(false);
    };
    let item = item(alloc, case.size)?;
    Ok(
        input.witness.len() == usize::from(case.items)
            && input.witness.item(0) == Some(item.as_slice())
            && input.witness == pushed(alloc, case)?,
    )
}

/// Whether the text of a case parses as its witness, and is written again.
fn is_read_back(alloc: Global, case: &Case) -> Result<bool, Fail> {
    let text = text_of(alloc, case)?;
    let read = read_tx(alloc, &text)?;
    Ok(read.write_tx(alloc)? == text && has_witness(alloc, &read, case)?)
}

#[test]
fn witnesses_are_read_and_written(rt: HostRuntime) -> Result<(), Fail> {
    for case in &CASES {
        assert!(rt; is_read_back(rt.alloc(), case)?);
    }
    Ok(())
}
