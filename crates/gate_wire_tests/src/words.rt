//! The words in which faults are printed.
use gate_bytes::{ByteFault, Memory};
use gate_lines::LaneFault;
use gate_net::{NetDenial, NetFault};
use gate_tx::{Shape, TxFault};
use std::alloc::Global;
use std::fmt;
use std::test::Fail;

/// Whether a value is printed as `wanted`.
fn prints<T: fmt::Display>(alloc: Global, value: &T, wanted: &str) -> Result<bool, Fail> {
    let printed = format!(in alloc; "{value}")?;
    Ok(printed.as_str() == wanted)
}

#[test]
fn faults_of_bytes_are_told(rt: HostRuntime) -> Result<(), Fail> {
    let faults = [
        (ByteFault::Short, "the bytes end within a field"),
        (
            ByteFault::NotCanonical,
            "a count is written longer than it needs",
        ),
        (ByteFault::TooLarge, "a count is above the limit"),
    ];
    for (fault, wanted) in faults {
        assert!(rt; prints(rt.alloc(), &fault, wanted)?, "{wanted}");
    }
    assert!(rt; prints(rt.alloc(), &Memory, "out of memory")?);
    Ok(())
}

#[test]
fn faults_of_lines_are_told(rt: HostRuntime) -> Result<(), Fail> {
    let faults = [
        (LaneFault::Read, "the input could not be read"),
        (LaneFault::Write, "the output could not be written"),
        (LaneFault::Memory, "out of memory"),
    ];
    for (fault, wanted) in faults {
        assert!(rt; prints(rt.alloc(), &fault, wanted)?, "{wanted}");
    }
    Ok(())
}

#[test]
fn faults_of_whitelists_are_told(rt: HostRuntime) -> Result<(), Fail> {
    let denied = NetFault::Denied(NetDenial::MappedSubnet);
    assert!(rt; prints(rt.alloc(), &denied, "mapped-subnet")?);
    assert!(rt; prints(rt.alloc(), &NetFault::Memory, "out of memory")?);
    Ok(())
}

#[test]
fn faults_of_transactions_are_told(rt: HostRuntime) -> Result<(), Fail> {
    let faults = [
        (TxFault::Memory, "out of memory"),
        (TxFault::Short, "the bytes end within a field"),
        (
            TxFault::NotCanonical,
            "a count is written longer than it needs",
        ),
        (TxFault::TooLarge, "a count or the whole is above the limit"),
        (TxFault::BadFlag, "an unknown flag"),
        (TxFault::EmptyWitness, "the form with witnesses has none"),
        (TxFault::Trailing, "bytes are left over"),
    ];
    for (fault, wanted) in faults {
        assert!(rt; prints(rt.alloc(), &fault, wanted)?, "{wanted}");
    }
    let shape = Shape {
        inputs: Vec::new(rt.alloc()),
        outputs: Vec::new(rt.alloc()),
    };
    let wanted = "outputs without inputs, or a text past 33554432 bytes";
    assert!(rt; prints(rt.alloc(), &shape, wanted)?);
    Ok(())
}
