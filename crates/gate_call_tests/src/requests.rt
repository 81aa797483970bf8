//! A copy of a request, which no part of the gate makes, and the words in which faults of calls are printed.
use gate_bytes::Copied;
use gate_rpc::{CallError, Command, RpcFault};
use std::test::Fail;

#[test]
fn a_request_has_an_equal_copy(rt: HostRuntime) -> Result<(), Fail> {
    let request = Command::read(rt.alloc(), "{\"method\":\"getrawmempool\",\"id\":\"a\"}")?;
    assert!(rt; request.copy(rt.alloc())? == request);
    Ok(())
}

#[test]
fn faults_are_printed(rt: HostRuntime) -> Result<(), Fail> {
    let faults = [
        (RpcFault::Memory, "out of memory"),
        (RpcFault::Call(CallError::ParseError), "no request"),
    ];
    for (fault, wanted) in &faults {
        let printed = format!(in rt.alloc(); "{fault}")?;
        assert!(rt; printed.as_str() == *wanted);
    }
    Ok(())
}
