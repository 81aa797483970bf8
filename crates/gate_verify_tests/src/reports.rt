//! Reports by workers: in order with any number of them, and whatever the check that was handed in does.
use gate_bytes::{Copied, Kept, Memory};
use gate_inputs::report;
use gate_tx::{Coin, OutPoint, TxIn, Txid, Witness, Wtxid};
use gate_verify::{Crew, InputCheck, InputReport, Piece, PolicyCheck, Workers, serve};
use std::alloc::Global;
use std::process::Abort;
use std::sync::Wait;
use std::sync::atomic::{AtomicU64, Ordering};
use std::test::Fail;
use std::thread;
use std::thread::Threads;

/// An input by its place, with its coin's script, its own script, and what they cost: four for each signature
/// operation, of which OP_CHECKMULTISIG counts 20 (Bitcoin Core 22.0's `GetTransactionSigOpCost`).
struct Spend {
    index: u32,
    coin: &'static [u8],
    script: &'static [u8],
    cost: u64,
}

/// An output to a key's hash that is met by OP_CHECKSIG and OP_CHECKMULTISIG, one to a script's hash by a push of
/// OP_CHECKMULTISIG, and OP_1 by nothing.
const SPENDS: [Spend; 3] = [
    Spend {
        index: 0,
        coin: &[
            0x76, 0xa9, 20, 1, 1, 1, 1, 1, 1, 1, 1, 1, 1, 1, 1, 1, 1, 1, 1, 1, 1, 1, 1, 0x88, 0xac,
        ],
        script: &[0xac, 0xae],
        cost: 84,
    },
    Spend {
        index: 1,
        coin: &[
            0xa9, 20, 1, 1, 1, 1, 1, 1, 1, 1, 1, 1, 1, 1, 1, 1, 1, 1, 1, 1, 1, 1, 0x87,
        ],
        script: &[0x01, 0xae],
        cost: 80,
    },
    Spend {
        index: 2,
        coin: &[0x51],
        script: &[],
        cost: 0,
    },
];

fn piece(alloc: Global, spend: &Spend) -> Result<Piece, Fail> {
    let script = Kept::from_vec(spend.script.to_vec(alloc)?);
    let locking = Kept::from_vec(spend.coin.to_vec(alloc)?);
    Ok(Piece {
        wtxid: Wtxid::new([0; 32]),
        index: spend.index,
        input: TxIn {
            prevout: OutPoint {
                txid: Txid::new([0x11; 32]),
                index: spend.index,
            },
            script,
            sequence: 0xffff_fffd,
            witness: Witness::new(alloc),
        },
        coin: Coin {
            value: 100_000,
            script: locking,
            height: 1,
            coinbase: false,
        },
    })
}

fn three_pieces(alloc: Global) -> Result<Vec<Piece>, Fail> {
    let mut pieces = Vec::new(alloc);
    for spend in &SPENDS {
        pieces.push(piece(alloc, spend)?)?;
    }
    Ok(pieces)
}

/// Whether these are the reports of the three pieces, in their order.
fn are_of_three(reports: &[InputReport]) -> bool {
    reports.len() == 3
        && reports.iter().zip(&SPENDS).all(|(report, spend)| {
            report.piece().index == spend.index && report.sigop_cost() == spend.cost
        })
}

fn workers<R: Abort>(rt: &R, count: usize) -> Workers {
    Workers::new(count).expect(rt, "a number from 1 to 64")
}

/// Whether a crew with this check gives the reports of the three pieces in their order each time that it is asked for
/// them.
fn gives_each_time<R: Wait, C: InputCheck>(
    rt: &R,
    alloc: Global,
    check: &C,
    pieces: &[Piece],
    crew: Crew,
    times: usize,
) -> Result<bool, Fail> {
    for _ in 0..times {
        let reports = crew.verify(rt, alloc, check, pieces)?;
        if !are_of_three(reports.as_slice()) {
            return Ok(false);
        }
    }
    Ok(true)
}

/// The same of a crew that so many workers serve, which end with it.
fn gives_beside_workers<R: Threads + Wait + Abort + Sync, C: InputCheck + Sync>(
    rt: &R,
    alloc: Global,
    check: &C,
    count: usize,
    times: usize,
) -> Result<bool, Fail> {
    let pieces = three_pieces(alloc)?;
    let pieces = pieces.as_slice();
    let workers = workers(rt, count);
    let (crew, post) = Crew::new(alloc)?;
    let ((), gives) = thread::join(
        rt,
        move || serve(rt, alloc, check, post, workers),
        move || gives_each_time(rt, alloc, check, pieces, crew, times),
    );
    gives
}

/// Whether 1, 2 and 64 workers with this check give the reports of the three pieces in their order.
fn gives_all<R: Threads + Wait + Abort + Sync, C: InputCheck + Sync>(
    rt: &R,
    alloc: Global,
    check: &C,
) -> Result<bool, Fail> {
    for count in [1, 2, 64] {
        if !gives_beside_workers(rt, alloc, check, count, 1)? {
            return Ok(false);
        }
    }
    Ok(true)
}

/// A check that is out of memory.
#[derive(Drop)]
struct Forgets;

impl InputCheck for Forgets {
    fn check(&self, _alloc: Global, _piece: &Piece) -> Result<InputReport, Memory> {
        Err(Memory)
    }
}

/// A check that reports one piece, whatever it is asked about.
#[derive(Drop)]
struct Mistakes(Piece);

impl InputCheck for Mistakes {
    fn check(&self, alloc: Global, _piece: &Piece) -> Result<InputReport, Memory> {
        report(alloc, self.0.copy(alloc)?)
    }
}

/// A check that counts the pieces that it meets.
#[derive(Drop)]
struct Counts(AtomicU64);

impl InputCheck for Counts {
    fn check(&self, alloc: Global, piece: &Piece) -> Result<InputReport, Memory> {
        self.0.fetch_add(1, Ordering::SeqCst);
        PolicyCheck.check(alloc, piece)
    }
}

/// If no worker reports on a piece, or a report is not of its piece, the caller makes the report.
#[test]
fn reports_that_are_missing_or_strange(rt: HostRuntime) -> Result<(), Fail> {
    assert!(rt; gives_all(&rt, rt.alloc(), &Forgets)?);
    let check = Mistakes(piece(rt.alloc(), &SPENDS[1])?);
    assert!(rt; gives_all(&rt, rt.alloc(), &check)?);
    Ok(())
}

/// Each piece is checked once by the check that was handed in.
#[test]
fn each_piece_is_checked_once(rt: HostRuntime) -> Result<(), Fail> {
    let check = Counts(AtomicU64::new(0));
    assert!(rt; gives_all(&rt, rt.alloc(), &check)?);
    assert_eq!(rt; check.0.load(Ordering::SeqCst), 9);
    Ok(())
}

/// Whether a crew without workers gives the reports of the three pieces, which its caller then makes.
fn gives_all_alone<R: Wait, C: InputCheck>(rt: &R, alloc: Global, check: &C) -> Result<bool, Fail> {
    let pieces = three_pieces(alloc)?;
    let (crew, post) = Crew::new(alloc)?;
    let reports = crew.verify(rt, alloc, check, pieces.as_slice())?;
    drop(post);
    Ok(are_of_three(reports.as_slice()))
}

#[test]
fn a_crew_without_workers(rt: HostRuntime) -> Result<(), Fail> {
    assert!(rt; gives_all_alone(&rt, rt.alloc(), &PolicyCheck)?);
    assert!(rt; gives_all_alone(&rt, rt.alloc(), &Forgets)?);
    Ok(())
}

/// Workers that get no piece end, and others report on one list after another.
#[test]
fn a_crew_with_workers(rt: HostRuntime) -> Result<(), Fail> {
    for times in [0, 1, 200] {
        assert!(rt; gives_beside_workers(&rt, rt.alloc(), &PolicyCheck, 64, times)?);
    }
    Ok(())
}
