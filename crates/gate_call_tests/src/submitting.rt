//! A submission that is judged and entered by one call, which no part of the gate makes.
use gate_admit::{
    Chain, Floor, Grant, OpeningCoin, Policy, Pool, Prepared, Verdict, Verdicts, submit,
};
use gate_bytes::{Kept, Memory};
use gate_standard::Denial;
use gate_tx::{Coin, OutPoint, Txid};
use std::alloc::Global;
use std::hash::{BuildHasherDefault, FoldHasher};
use std::test::Fail;

pub(crate) type Hasher = BuildHasherDefault<FoldHasher>;

/// An output to a key's hash.
const SCRIPT: [u8; 22] = [
    0x00, 0x14, 0x22, 0x22, 0x22, 0x22, 0x22, 0x22, 0x22, 0x22, 0x22, 0x22, 0x22, 0x22, 0x22, 0x22,
    0x22, 0x22, 0x22, 0x22, 0x22, 0x22,
];

/// A transaction that spends the coin of 100,000 satoshi, pays 99,890, and takes 110 virtual bytes.
const PAYMENT: &str =
    "0200000000010111111111111111111111111111111111111111111111111111111111111111110000000000fdffffff013286010000000000160014222222222222222222222222222222222222222202483030303030303030303030303030303030303030303030303030303030303030303030303030303030303030303030303030303030303030303030303030303030303030303030302102020202020202020202020202020202020202020202020202020202020202020200000000";

fn coin(alloc: Global) -> Result<Coin, Memory> {
    let script = Vec::from_slice(alloc, &SCRIPT)?;
    Ok(Coin {
        value: 100_000,
        script: Kept::from_vec(script),
        height: 1,
        coinbase: false,
    })
}

/// The one coin, behind its outpoint.
fn coins(alloc: Global) -> Result<Vec<OpeningCoin>, Memory> {
    let coin = coin(alloc)?;
    let outpoint = OutPoint {
        txid: Txid::new([0x11; 32]),
        index: 0,
    };
    Ok(Vec::from_array(alloc, [OpeningCoin { outpoint, coin }])?)
}

/// A chain of two blocks with these coins.
fn opened(alloc: Global, coins: Vec<OpeningCoin>) -> Result<Chain<Hasher>, Fail> {
    let times = Vec::from_slice(alloc, &[1000, 1600])?;
    Ok(Chain::open(alloc, BuildHasherDefault::new(), coins, times)?)
}

pub(crate) fn chain(alloc: Global) -> Result<Chain<Hasher>, Fail> {
    let coins = coins(alloc)?;
    opened(alloc, coins)
}

pub(crate) fn payment(alloc: Global) -> Result<Prepared, Fail> {
    let bytes = hex::decode(alloc, PAYMENT)?;
    Ok(Prepared::new(alloc, &bytes)?)
}

/// What a submission gets at second 5,000, if each script is good.
pub(crate) fn answer(
    alloc: Global,
    chain: &Chain<Hasher>,
    pool: &mut Pool<Hasher>,
    prepared: &Prepared,
) -> Result<Result<Grant, Denial>, Memory> {
    let mut verdicts = Verdicts::new(alloc, BuildHasherDefault::new());
    verdicts.answer_others(Verdict::Good);
    let mut floor = Floor::new(0);
    let policy = Policy::default();
    submit(
        alloc, chain, pool, &mut floor, prepared, &verdicts, &policy, 5_000, 1_000_000,
    )
}

/// Whether a payment is granted, and denied when it is made once more, since it is in the pool.
fn is_entered_once(
    alloc: Global,
    chain: &Chain<Hasher>,
    pool: &mut Pool<Hasher>,
    prepared: &Prepared,
) -> Result<bool, Memory> {
    let granted = Ok(Grant {
        fee: 110,
        vsize: 110,
        replaced: 0,
    });
    let first = answer(alloc, chain, pool, prepared)?;
    let second = answer(alloc, chain, pool, prepared)?;
    Ok(first == granted && second == Err(Denial::AlreadyInMempool))
}

fn is_entered_in(
    alloc: Global,
    chain: &Chain<Hasher>,
    pool: &mut Pool<Hasher>,
) -> Result<bool, Fail> {
    let prepared = payment(alloc)?;
    Ok(is_entered_once(alloc, chain, pool, &prepared)?)
}

fn is_entered_on(alloc: Global, chain: &Chain<Hasher>) -> Result<bool, Fail> {
    let mut pool = Pool::new(alloc, BuildHasherDefault::new())?;
    is_entered_in(alloc, chain, &mut pool)
}

#[test]
fn a_payment_is_entered_once(rt: HostRuntime) -> Result<(), Fail> {
    let chain = chain(rt.alloc())?;
    assert!(rt; is_entered_on(rt.alloc(), &chain)?);
    Ok(())
}
