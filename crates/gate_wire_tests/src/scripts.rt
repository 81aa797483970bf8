//! Scripts of each template, their operations and their pushes.
use gate_script::{Op, Template, is_push_only, ops, push_stack, sigops, template, witness_program};
use std::process::Abort;
use std::test::Fail;

/// A script put together: the bytes in front, the byte 7 this many times, and the bytes behind.
type Parts<'a> = (&'a [u8], usize, &'a [u8]);

fn joined(rt: &(impl Abort + AllocGlobal), parts: &Parts<'_>) -> Result<Vec<u8>, Fail> {
    let (front, count, back) = *parts;
    let mut script = Vec::new(rt.alloc());
    script.extend_from_slice(front)?;
    for _ in 0..count {
        script.push(7)?;
    }
    script.extend_from_slice(back)?;
    Ok(script)
}

fn assert_templates(
    rt: &(impl Abort + AllocGlobal),
    cases: &[(Parts<'_>, Template)],
) -> Result<(), Fail> {
    for (parts, wanted) in cases {
        let script = joined(rt, parts)?;
        let found = template(script.as_slice());
        drop(script);
        assert!(rt; found == *wanted, "{parts:?}");
    }
    Ok(())
}

// Expected values: the templates of Bitcoin Core 22.0's script_standard_tests and BIP 141, 341.
#[test]
fn witness_templates(rt: HostRuntime) -> Result<(), Fail> {
    let cases: [(Parts<'_>, Template); 9] = [
        ((&[0x51, 32], 32, &[]), Template::Taproot),
        ((&[0x00, 20], 20, &[]), Template::WitnessV0Key),
        ((&[0x00, 32], 32, &[]), Template::WitnessV0Script),
        ((&[0x00, 20], 19, &[]), Template::Nonstandard),
        ((&[0x00, 2, 0xaa, 0xbb], 0, &[]), Template::Nonstandard),
        ((&[0x52, 2, 0xaa, 0xbb], 0, &[]), Template::WitnessUnknown),
        ((&[0x51, 2, 0x4e, 0x73], 0, &[]), Template::WitnessUnknown),
        ((&[0x60, 40], 40, &[]), Template::WitnessUnknown),
        ((&[0x60, 41], 41, &[]), Template::Nonstandard),
    ];
    assert_templates(&rt, &cases)
}

#[test]
fn witness_programs(rt: HostRuntime) {
    let (version, program) = witness_program(&[0x60, 3, 7, 8, 9]).unwrap_or((0, &[]));
    assert_eq!(rt; version, 16);
    assert_eq!(rt; program, [7, 8, 9].as_slice());
    assert!(rt; witness_program(&[0x51, 1, 7]).is_none());
    assert!(rt; witness_program(&[0x61, 2, 7, 7]).is_none());
    assert!(rt; witness_program(&[0x51, 3, 7, 7]).is_none());
}

#[test]
fn plain_templates(rt: HostRuntime) -> Result<(), Fail> {
    let cases: [(Parts<'_>, Template); 10] = [
        ((&[0xa9, 20], 20, &[0x87]), Template::ScriptHash),
        ((&[0x76, 0xa9, 20], 20, &[0x88, 0xac]), Template::KeyHash),
        ((&[0x6a, 0x50], 0, &[]), Template::NullData),
        ((&[0x6a], 0, &[]), Template::NullData),
        ((&[0x6a, 0x01], 0, &[]), Template::Nonstandard),
        ((&[0x6a, 0x61], 0, &[]), Template::Nonstandard),
        ((&[], 0, &[]), Template::Nonstandard),
        ((&[0x21, 2], 32, &[0xac]), Template::Key),
        ((&[0x41, 6], 64, &[0xac]), Template::Key),
        ((&[0x21, 4], 32, &[0xac]), Template::Nonstandard),
    ];
    assert_templates(&rt, &cases)
}

#[test]
fn multisig_templates(rt: HostRuntime) -> Result<(), Fail> {
    let one_of_one = Template::Multisig {
        required: 1,
        keys: 1,
    };
    let cases: [(Parts<'_>, Template); 6] = [
        ((&[0x51, 0x21, 2], 32, &[0x51, 0xae]), one_of_one),
        ((&[0x51, 0x4c, 0x21, 3], 32, &[0x51, 0xae]), one_of_one),
        ((&[0x52, 0x21, 2], 32, &[0x51, 0xae]), Template::Nonstandard),
        ((&[0x51, 0x21, 2], 32, &[0x52, 0xae]), Template::Nonstandard),
        (
            (&[0x51, 0x21, 2], 32, &[0x51, 0xae, 0x61]),
            Template::Nonstandard,
        ),
        ((&[0x51, 0xae], 0, &[]), Template::Nonstandard),
    ];
    assert_templates(&rt, &cases)
}

#[test]
fn operations(rt: HostRuntime) {
    assert_eq!(rt; sigops(&[0x52, 0xae], true), 2);
    assert_eq!(rt; sigops(&[0x52, 0xae], false), 20);
    assert_eq!(rt; sigops(&[0xac, 0xad], false), 2);
    assert_eq!(rt; sigops(&[0x02, 0xac], false), 0);
    assert_eq!(rt; sigops(&[0xae, 0x01, 0x60, 0xaf], true), 40);
    assert_eq!(rt; sigops(&[0xac, 0x4c, 0x02, 0xac], true), 1);
}

/// How many items the pushes of a script leave.
fn items_in(rt: &(impl Abort + AllocGlobal), parts: &Parts<'_>) -> Result<Option<usize>, Fail> {
    let script = joined(rt, parts)?;
    let count = push_stack(rt.alloc(), script.as_slice())?.map(|stack| stack.len());
    drop(script);
    Ok(count)
}

#[test]
fn pushes_that_are_counted(rt: HostRuntime) -> Result<(), Fail> {
    let cases: [(Parts<'_>, Option<usize>); 6] = [
        ((&[], 0, &[]), Some(0)),
        ((&[0x00, 0x51, 0x5f, 0x4f], 0, &[]), Some(4)),
        ((&[0x50], 0, &[]), None),
        ((&[0x51, 0x02, 0xaa], 0, &[]), None),
        ((&[0x4d, 0x08, 0x02], 520, &[]), Some(1)),
        ((&[0x4d, 0x09, 0x02], 521, &[]), None),
    ];
    for (parts, wanted) in cases {
        assert_eq!(rt; items_in(&rt, &parts)?, wanted, "{parts:?}");
    }
    Ok(())
}

/// How many items `count` pushes of the number 1 leave.
fn ones_in(rt: &(impl Abort + AllocGlobal), count: usize) -> Result<Option<usize>, Fail> {
    let mut script = Vec::new(rt.alloc());
    for _ in 0..count {
        script.push(0x51)?;
    }
    let count = push_stack(rt.alloc(), script.as_slice())?.map(|stack| stack.len());
    drop(script);
    Ok(count)
}

#[test]
fn a_thousand_pushes(rt: HostRuntime) -> Result<(), Fail> {
    assert_eq!(rt; ones_in(&rt, 1000)?, Some(1000));
    assert_eq!(rt; ones_in(&rt, 1001)?, None);
    Ok(())
}

#[test]
fn pushed_items(rt: HostRuntime) -> Result<(), Fail> {
    let stack = push_stack(rt.alloc(), &[0x00, 0x51, 0x5f, 0x4f])?.ok_or("no stack")?;
    let want: [&[u8]; 4] = [&[], &[0x01], &[0x0f], &[0x81]];
    assert_eq!(rt; stack.len(), 4);
    for (item, bytes) in stack.as_slice().iter().zip(want) {
        assert_eq!(rt; item.as_slice(), bytes);
    }
    Ok(())
}

#[test]
fn instructions_of_each_kind(rt: HostRuntime) {
    let wanted = [
        Op::Push {
            opcode: 0x02,
            bytes: &[0xaa, 0xbb],
        },
        Op::Push {
            opcode: 0x4e,
            bytes: &[0xcc],
        },
        Op::Plain(0x61),
        Op::Truncated { opcode: 0x4d },
    ];
    let mut left = ops(&[
        0x02, 0xaa, 0xbb, 0x4e, 0x01, 0, 0, 0, 0xcc, 0x61, 0x4d, 0x01,
    ]);
    for op in wanted {
        assert!(rt; left.next() == Some(op));
    }
    assert!(rt; left.next().is_none());
    assert!(rt; is_push_only(&[0x00, 0x60, 0x02, 0x61, 0x61, 0x50]));
    assert!(rt; !is_push_only(&[0x61]) && !is_push_only(&[0x02, 0x61]));
}
