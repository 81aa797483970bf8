//! The words in which faults of steps, calls and openings are printed.
use gate_core::{Reply, StepFault};
use gate_opening::{OpeningFault, OpeningToken};
use gate_shared::{CallFault, Receipt};
use gate_split::SplitFault;
use std::alloc::Global;
use std::fmt;
use std::test::Fail;

/// Whether a value is printed as `wanted`.
fn prints<T: fmt::Display>(alloc: Global, value: &T, wanted: &str) -> Result<bool, Fail> {
    let printed = format!(in alloc; "{value}")?;
    Ok(printed.as_str() == wanted)
}

#[test]
fn faults_of_calls_are_told(rt: HostRuntime) -> Result<(), Fail> {
    let last = Receipt {
        number: 1,
        reply: Reply::Left,
    };
    let faults = [
        (CallFault::WrongCaller, "the event is another caller's"),
        (CallFault::PassFull, "the pass is full"),
        (
            CallFault::HistoryShort(last),
            "the journal lacks the pass's last receipt",
        ),
        (CallFault::AuditFull, "the journal is full"),
        (CallFault::Memory, "out of memory"),
    ];
    for (fault, wanted) in &faults {
        assert!(rt; prints(rt.alloc(), fault, wanted)?, "{wanted}");
    }
    Ok(())
}

#[test]
fn faults_of_openings_are_told(rt: HostRuntime) -> Result<(), Fail> {
    let faults = [
        (
            OpeningFault::Line(3, OpeningToken::CoinTwice),
            "opening 3 coin-twice",
        ),
        (OpeningFault::Read, "the opening could not be read"),
        (OpeningFault::Memory, "out of memory"),
    ];
    for (fault, wanted) in &faults {
        assert!(rt; prints(rt.alloc(), fault, wanted)?, "{wanted}");
    }
    assert!(rt; prints(rt.alloc(), &StepFault::Memory, "out of memory")?);
    Ok(())
}

#[test]
fn faults_of_splitting_are_told(rt: HostRuntime) -> Result<(), Fail> {
    let faults = [
        (SplitFault::Read, "the input could not be read"),
        (SplitFault::TooManyLanes, "more than 64 lanes"),
        (SplitFault::Memory, "out of memory"),
    ];
    for (fault, wanted) in &faults {
        assert!(rt; prints(rt.alloc(), fault, wanted)?, "{wanted}");
    }
    Ok(())
}
