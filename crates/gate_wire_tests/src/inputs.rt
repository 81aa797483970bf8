//! Inputs with coins of each template, reported at the limits of Bitcoin Core 22.0's policy/policy.h, with the costs of BIP 141.
use gate_bytes::{Copied, Kept};
use gate_inputs::{Answers, Coin, Piece, report};
use gate_tx::{OutPoint, TxIn, Txid, Witness, Wtxid};
use std::alloc::Global;
use std::test::Fail;

const SCRIPT_HASH: [u8; 23] = [
    0xa9, 20, 1, 1, 1, 1, 1, 1, 1, 1, 1, 1, 1, 1, 1, 1, 1, 1, 1, 1, 1, 1, 0x87,
];

const KEY_HASH: [u8; 25] = [
    0x76, 0xa9, 20, 1, 1, 1, 1, 1, 1, 1, 1, 1, 1, 1, 1, 1, 1, 1, 1, 1, 1, 1, 1, 0x88, 0xac,
];

const WITNESS_SCRIPT_HASH: [u8; 34] = [
    0, 32, 2, 2, 2, 2, 2, 2, 2, 2, 2, 2, 2, 2, 2, 2, 2, 2, 2, 2, 2, 2, 2, 2, 2, 2, 2, 2, 2, 2, 2,
    2, 2, 2,
];

/// Pay to anchor (BIP 433).
const ANCHOR: [u8; 4] = [0x51, 2, 0x4e, 0x73];

/// A push of a witness key hash program.
const PUSHED_PROGRAM: [u8; 23] = [
    22, 0, 20, 2, 2, 2, 2, 2, 2, 2, 2, 2, 2, 2, 2, 2, 2, 2, 2, 2, 2, 2, 2,
];

/// A witness: this many items of a size, and a last item of this many OP_CHECKSIGs.
type Items = (u16, u16, u16);

/// An input: its coin's script, its own script and its witness, and whether input and witness are standard, with the
/// cost of its signature operations; and whether its coin is an anchor, with its legacy operations (BIP 54).
type Case<'a> = (
    &'a [u8],
    &'a [u8],
    Option<Items>,
    (bool, bool, u64),
    (bool, u64),
);

const CASES: [Case<'static>; 18] = [
    (
        &KEY_HASH,
        &[0xac, 0xae],
        None,
        (true, true, 84),
        (false, 22),
    ),
    (&[0x51], &[], None, (false, true, 0), (false, 0)),
    (
        &[0x52, 2, 0xaa, 0xbb],
        &[],
        None,
        (false, true, 0),
        (false, 0),
    ),
    (
        &KEY_HASH,
        &[],
        Some((1, 72, 33)),
        (true, false, 0),
        (false, 1),
    ),
    (&SCRIPT_HASH, &[0x50], None, (false, true, 0), (false, 0)),
    (&SCRIPT_HASH, &[], None, (false, true, 0), (false, 0)),
    (
        &SCRIPT_HASH,
        &[0x02, 0x52, 0xae],
        None,
        (true, true, 8),
        (false, 2),
    ),
    (
        &SCRIPT_HASH,
        &[0x01, 0xae],
        None,
        (false, true, 80),
        (false, 20),
    ),
    (
        &SCRIPT_HASH,
        &PUSHED_PROGRAM,
        Some((1, 72, 33)),
        (true, true, 1),
        (false, 0),
    ),
    (
        &SCRIPT_HASH,
        &[0x01, 0x51],
        Some((1, 72, 33)),
        (true, false, 0),
        (false, 0),
    ),
    (
        &WITNESS_SCRIPT_HASH,
        &[],
        Some((100, 80, 3600)),
        (true, true, 3600),
        (false, 0),
    ),
    (
        &WITNESS_SCRIPT_HASH,
        &[],
        Some((101, 1, 1)),
        (true, false, 1),
        (false, 0),
    ),
    (
        &WITNESS_SCRIPT_HASH,
        &[],
        Some((1, 81, 1)),
        (true, false, 1),
        (false, 0),
    ),
    (
        &WITNESS_SCRIPT_HASH,
        &[],
        Some((1, 80, 3601)),
        (true, false, 3601),
        (false, 0),
    ),
    (&ANCHOR, &[], None, (false, true, 0), (true, 0)),
    (&ANCHOR, &[], Some((0, 0, 0)), (false, true, 0), (true, 0)),
    (
        &SCRIPT_HASH,
        &[4, 0x51, 2, 0x4e, 0x73],
        None,
        (true, true, 0),
        (false, 0),
    ),
    (
        &[0x52, 0xae, 0xae],
        &[0x51, 0xae, 0xad],
        None,
        (false, true, 84),
        (false, 24),
    ),
];

fn witness_of(alloc: Global, items: Option<Items>) -> Result<Witness, Fail> {
    let mut witness = Witness::new(alloc);
    if let Some((count, size, last)) = items {
        let item = vec![in alloc; 1u8; usize::from(size)]?;
        for _ in 0..count {
            witness.push(&item)?;
        }
        witness.push(&vec![in alloc; 0xacu8; usize::from(last)]?)?;
    }
    Ok(witness)
}

fn piece_of(alloc: Global, case: &Case<'_>) -> Result<Piece, Fail> {
    let (coin, script, items, ..) = *case;
    Ok(Piece {
        wtxid: Wtxid::new([0; 32]),
        index: 0,
        input: TxIn {
            prevout: OutPoint {
                txid: Txid::new([0x11; 32]),
                index: 0,
            },
            script: Kept::from_vec(script.to_vec(alloc)?),
            sequence: 0xffff_fffd,
            witness: witness_of(alloc, items)?,
        },
        coin: Coin {
            value: 100_000,
            script: Kept::from_vec(coin.to_vec(alloc)?),
            height: 1,
            coinbase: false,
        },
    })
}

/// Whether a copy of the report on the input of a case has the answers that it should have.
fn is_reported(alloc: Global, case: &Case<'_>) -> Result<bool, Fail> {
    let (standard, witness_standard, sigop_cost) = case.3;
    let (anchor, legacy_sigops) = case.4;
    let report = report(alloc, piece_of(alloc, case)?)?;
    let wanted = Answers {
        standard,
        witness_standard,
        sigop_cost,
        anchor,
        bare: case.2.is_none(),
        legacy_sigops,
    };
    Ok(report.copy(alloc)?.answers() == wanted)
}

#[test]
fn inputs_are_reported(rt: HostRuntime) -> Result<(), Fail> {
    for (number, case) in CASES.iter().enumerate() {
        assert!(rt; is_reported(rt.alloc(), case)?, "case {number}");
    }
    Ok(())
}
