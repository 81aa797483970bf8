//! The median time past of a chain, and the words of its faults.
use gate_chain::{Chain, ChainDenial, ChainFault, OpenFault};
use std::alloc::Global;
use std::hash::{BuildHasherDefault, FoldHasher};
use std::test::Fail;

type Hasher = BuildHasherDefault<FoldHasher>;

fn opened(alloc: Global, times: &[u32]) -> Result<Chain<Hasher>, Fail> {
    let times = Vec::from_slice(alloc, times)?;
    Ok(Chain::open(alloc, BuildHasherDefault::new(), Vec::new(alloc), times)?)
}

// The expected medians are Python's sorted(times)[len(times) // 2].
#[test]
fn the_median_of_eleven_times(rt: HostRuntime) -> Result<(), Fail> {
    let times = [100, 30, 70, 20, 90, 10, 80, 40, 60, 50, 110, 5, 65];
    let medians = [(1, Some(100)), (10, Some(60)), (11, Some(50)), (13, None)];
    let chain = opened(rt.alloc(), &times)?;
    for (height, median) in medians {
        assert!(rt; chain.mtp(height) == median, "{height}");
    }
    Ok(())
}

#[test]
fn faults_are_printed(rt: HostRuntime) -> Result<(), Fail> {
    let faults = [
        (OpenFault::Memory, "out of memory"),
        (OpenFault::NoTimes, "there are no block times"),
        (
            OpenFault::TimesLimit,
            "there are more than 1,000,000 block times, or the tip is above 10,000,000",
        ),
        (
            OpenFault::CoinValue(7),
            "coin 7 has a value outside 0 to 2,100,000,000,000,000",
        ),
        (OpenFault::CoinUnspendable(7), "nothing can spend coin 7"),
        (
            OpenFault::CoinAboveTip(7),
            "coin 7 has a height above the tip",
        ),
        (
            OpenFault::CoinTwice(7),
            "coin 7 has the outpoint of an earlier one",
        ),
    ];
    for (fault, wanted) in faults {
        let printed = format!(in rt.alloc(); "{fault}")?;
        assert!(rt; printed.as_str() == wanted);
    }
    let faults = [
        (ChainFault::Memory, "out of memory"),
        (ChainFault::Denied(ChainDenial::NoUndo), "no-undo"),
    ];
    for (fault, wanted) in faults {
        let printed = format!(in rt.alloc(); "{fault}")?;
        assert!(rt; printed.as_str() == wanted);
    }
    Ok(())
}
