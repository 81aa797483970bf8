//! What is written of a call, once it is made.
use crate::fault::Fault;
use gate_bytes::Memory;
use gate_core::StepFault;
use gate_message::Reply;
use gate_shared::{CallFault, Receipt};
use gate_tx::Coin;
use std::alloc::Global;
use std::io::Print;

/// Writes that a call ran out of memory.
pub(crate) fn tell_refusal<R: Print>(rt: &R) -> Result<(), Fault> {
    rt.write_all(b"fault memory\n")?;
    Ok(())
}

/// Writes that a call ran out of memory, and says that it was not made.
pub(crate) fn tell_unmade<R: Print>(rt: &R) -> Result<bool, Fault> {
    tell_refusal(rt)?;
    Ok(false)
}

fn tell_reply<R: Print>(rt: &R, alloc: Global, reply: &Reply) -> Result<bool, Fault> {
    let text = reply.text(alloc)?;
    rt.println(text.as_str())?;
    Ok(true)
}

/// Writes the reply of a step, and says whether the step was made.
pub(crate) fn tell_step<R: Print>(
    rt: &R,
    alloc: Global,
    made: &Result<Reply, StepFault>,
) -> Result<bool, Fault> {
    match made {
        Ok(reply) => tell_reply(rt, alloc, reply),
        Err(StepFault::Memory) => tell_unmade(rt),
    }
}

fn tell_receipt<R: Print>(rt: &R, alloc: Global, receipt: &Receipt) -> Result<bool, Fault> {
    print!(rt; "{} ", receipt.number)?;
    tell_reply(rt, alloc, &receipt.reply)
}

/// Writes the receipt of a call, and says whether the call was made.
pub(crate) fn tell_call<R: Print>(
    rt: &R,
    alloc: Global,
    made: &Result<Receipt, CallFault>,
) -> Result<bool, Fault> {
    match made {
        Ok(receipt) => tell_receipt(rt, alloc, receipt),
        Err(CallFault::Memory) => tell_unmade(rt),
        Err(_) => Err(Fault::Call),
    }
}

/// How many of these coins there are.
fn found(coins: &[Option<Coin>]) -> usize {
    coins.iter().filter(|coin| coin.is_some()).count()
}

fn tell_coins<R: Print>(rt: &R, found: usize, inputs: usize) -> Result<bool, Fault> {
    println!(rt; "coins {found} of {inputs}")?;
    Ok(true)
}

/// Writes for how many inputs a coin was found, and says whether the look was made.
pub(crate) fn tell_look<R: Print>(
    rt: &R,
    made: &Result<Vec<Option<Coin>>, Memory>,
) -> Result<bool, Fault> {
    match made {
        Ok(coins) => tell_coins(rt, found(coins.as_slice()), coins.len()),
        Err(Memory) => tell_unmade(rt),
    }
}

/// Writes the number of a pass, if one was given out, and says whether it was.
pub(crate) fn tell_pass<R: Print>(rt: &R, number: Option<u64>) -> Result<bool, Fault> {
    match number {
        Some(number) => {
            println!(rt; "pass {number}")?;
            Ok(true)
        }
        None => tell_unmade(rt),
    }
}

/// Writes how many calls were settled.
pub(crate) fn tell_count<R: Print>(rt: &R, count: u64) -> Result<bool, Fault> {
    println!(rt; "settled {count}")?;
    Ok(true)
}

/// Writes whether two texts are the same.
pub(crate) fn tell_change<R: Print>(rt: &R, before: &str, after: &str) -> Result<(), Fault> {
    let told = if before == after {
        "unchanged"
    } else {
        "changed"
    };
    rt.println(told)?;
    Ok(())
}
