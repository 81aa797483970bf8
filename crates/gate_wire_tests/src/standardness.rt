//! Transactions at the limits of Bitcoin Core 22.0's `IsStandardTx` and `CheckTransaction`.
use gate_bytes::Kept;
use gate_standard::*;
use gate_tx::{OutPoint, Transaction, TxIn, TxOut, Txid, Witness};
use std::alloc::Global;
use std::test::Fail;

fn joined(alloc: Global, parts: &[&[u8]]) -> Result<Kept<u8>, Fail> {
    let mut bytes = Vec::new(alloc);
    for part in parts {
        bytes.extend_from_slice(part)?;
    }
    Ok(Kept::from_vec(bytes))
}

/// An input: the byte that its outpoint's id is made of, where 0 stands for the null outpoint, and its script.
type Input<'a> = (u8, &'a [u8]);

fn spending(alloc: Global, input: &Input<'_>) -> Result<TxIn, Fail> {
    let (id, script) = *input;
    let prevout = OutPoint {
        txid: Txid::new([id; 32]),
        index: if id == 0 { u32::MAX } else { 0 },
    };
    Ok(TxIn {
        prevout,
        script: joined(alloc, &[script])?,
        sequence: 0xffff_fffd,
        witness: Witness::new(alloc),
    })
}

/// An output: its value, and the parts of its script.
type Output<'a> = (i64, &'a [&'a [u8]]);

fn paying(alloc: Global, output: &Output<'_>) -> Result<TxOut, Fail> {
    let (value, parts) = *output;
    Ok(TxOut {
        value,
        script: joined(alloc, parts)?,
    })
}

fn inputs_of(alloc: Global, told: &[Input<'_>]) -> Result<Vec<TxIn>, Fail> {
    let mut inputs = Vec::new(alloc);
    for input in told {
        inputs.push(spending(alloc, input)?)?;
    }
    Ok(inputs)
}

fn outputs_of(alloc: Global, told: &[Output<'_>]) -> Result<Vec<TxOut>, Fail> {
    let mut outputs = Vec::new(alloc);
    for output in told {
        outputs.push(paying(alloc, output)?)?;
    }
    Ok(outputs)
}

fn transaction(
    alloc: Global,
    inputs: &[Input<'_>],
    outputs: &[Output<'_>],
) -> Result<Transaction, Fail> {
    let inputs = inputs_of(alloc, inputs)?;
    let outputs = outputs_of(alloc, outputs)?;
    Ok(Transaction::new(2, inputs, outputs, 0)?)
}

/// The denial by the rules of policy: by those that no operator sets, or else by those on outputs and the least size.
fn policy_denial(tx: &Transaction) -> Option<Denial> {
    match check_form(tx) {
        Some(denial) => Some(denial),
        None => check_outputs(&Standards::default(), tx),
    }
}

/// The denial by the rules of every transaction, or else by those of policy.
fn denial_of(alloc: Global, tx: &Transaction) -> Result<Option<Denial>, Fail> {
    Ok(match check_transaction(alloc, tx)? {
        Some(denial) => Some(denial),
        None => policy_denial(tx),
    })
}

fn first_denial(
    alloc: Global,
    inputs: &[Input<'_>],
    outputs: &[Output<'_>],
) -> Result<Option<Denial>, Fail> {
    let tx = transaction(alloc, inputs, outputs)?;
    let denial = denial_of(alloc, &tx);
    drop(tx);
    denial
}

#[test]
fn dust_of_each_template(rt: HostRuntime) -> Result<(), Fail> {
    let thresholds: [(&[&[u8]], u128); 7] = [
        (&[&[0x76, 0xa9, 20], &[0x22; 20], &[0x88, 0xac]], 546),
        (&[&[0xa9, 20], &[0x22; 20], &[0x87]], 540),
        (&[&[0x00, 20], &[0x22; 20]], 294),
        (&[&[0x00, 32], &[0x22; 32]], 330),
        (&[&[0x51, 32], &[0x22; 32]], 330),
        (&[&[0x6a], &[20], &[0x22; 20]], 0),
        (&[&[0x22; 10_001]], 0),
    ];
    for (parts, threshold) in thresholds {
        let output = paying(rt.alloc(), &(0, parts))?;
        let found = dust_threshold(Standards::default().dust_rate, &output);
        drop(output);
        assert_eq!(rt; found, threshold);
    }
    Ok(())
}

/// A payment to a witness key hash.
const TO_KEY: &[&[u8]] = &[&[0x00, 20], &[0x22; 20]];

#[test]
fn inputs_of_a_transaction(rt: HostRuntime) -> Result<(), Fail> {
    let cases: [(&[Input<'_>], Option<Denial>); 10] = [
        (
            &[(0x11, &[]), (0x12, &[]), (0x11, &[])],
            Some(Denial::InputsDuplicate),
        ),
        (&[(0x11, &[]), (0x12, &[]), (0x13, &[])], None),
        (&[(0, &[0x51])], Some(Denial::CoinbaseLength)),
        (&[(0, &[0x51; 101])], Some(Denial::CoinbaseLength)),
        (&[(0, &[0x51; 2])], Some(Denial::Coinbase)),
        (&[(0, &[0x51; 100])], Some(Denial::Coinbase)),
        (&[(0, &[0x51]), (0x11, &[])], Some(Denial::PrevoutNull)),
        (&[(0x11, &[0x51; 1651])], Some(Denial::ScriptSigSize)),
        (&[(0x11, &[0x51; 1650])], None),
        (
            &[(0x11, &[0x61]), (0x12, &[0x51; 1651])],
            Some(Denial::ScriptSigNotPushOnly),
        ),
    ];
    for (inputs, wanted) in cases {
        assert!(rt; first_denial(rt.alloc(), inputs, &[(90_000, TO_KEY)])? == wanted);
    }
    assert!(rt; first_denial(rt.alloc(), &[], &[])? == Some(Denial::VinEmpty));
    Ok(())
}

#[test]
fn standard_outputs(rt: HostRuntime) -> Result<(), Fail> {
    let cases: [(&[Output<'_>], Option<Denial>); 9] = [
        (&[(1000, &[&[0x51]])], Some(Denial::ScriptPubKey)),
        (&[(1, TO_KEY), (1000, &[&[0x51]])], Some(Denial::Dust)),
        (
            &[(1000, &[&[0x51]]), (1, TO_KEY)],
            Some(Denial::ScriptPubKey),
        ),
        (&[(293, TO_KEY)], Some(Denial::Dust)),
        (&[(294, TO_KEY)], None),
        (
            &[(0, &[&[0x6a]]), (0, &[&[0x6a, 0x51]])],
            Some(Denial::MultiOpReturn),
        ),
        (&[(0, &[&[0x6a, 0x4c, 80], &[1; 80]])], None),
        (
            &[(0, &[&[0x6a, 0x4c, 81], &[1; 81]])],
            Some(Denial::ScriptPubKey),
        ),
        (
            &[(1000, &[&[0x52, 2, 0xaa, 0xbb]])],
            Some(Denial::TxSizeSmall),
        ),
    ];
    for (outputs, wanted) in cases {
        assert!(rt; first_denial(rt.alloc(), &[(0x11, &[])], outputs)? == wanted);
    }
    Ok(())
}

// An output to one signature of three keys, and of four.
#[test]
fn signatures_of_many_keys(rt: HostRuntime) -> Result<(), Fail> {
    let key: &[u8] = &[2; 33];
    let three: [&[u8]; 8] = [&[0x51], &[33], key, &[33], key, &[33], key, &[0x53, 0xae]];
    let four: [&[u8]; 10] = [
        &[0x51],
        &[33],
        key,
        &[33],
        key,
        &[33],
        key,
        &[33],
        key,
        &[0x54, 0xae],
    ];
    let spent: [Input<'_>; 1] = [(0x11, &[])];
    assert!(rt; first_denial(rt.alloc(), &spent, &[(1000, &three)])?.is_none());
    let denied = first_denial(rt.alloc(), &spent, &[(1000, &four)])?;
    assert!(rt; denied == Some(Denial::ScriptPubKey));
    Ok(())
}
