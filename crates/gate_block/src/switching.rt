//! Several blocks in the place of the last ones, with the way back.
ghost use Rattle.std.specs.Prelude.{◌≡◌, ◌-◌, ◌<◌, ◌≤◌, ◌||◌, None, [], nat_lt, length, IfOk, IfErr, OnOk, OnErr};
ghost use Rattle.gate_bytes.specs.Order.{first_failing};
ghost use Rattle.gate_chain.specs.Connecting.{Tells};
ghost use Rattle.gate_block.specs.Switching.{grown_by, without_last, last_blocks, switched, blocks_rules, switch_rules, max_depth, LeadsBack};

use gate_bytes::{Kept, Memory};
use gate_chain::{Block, Chain, ChainDenial, ChainFault, ChainTop};
use std::alloc::Global;
use std::hash::BuildHasher;
use std::marker::Model;
use std::snapshot::Snapshot;

/// The most blocks that one event disconnects.
const MAX_DEPTH: u64 = 100;

/// Disconnects the last `count` blocks, or all if there are fewer. It takes no memory.
fn drop_last<S: BuildHasher + Copy + Drop>(chain: &mut Chain<S>, count: usize)
    ensures { chain.new ≡ without_last chain.old count }
{
    for _ in 0..count {
        let _ = chain.disconnect();
    }
}

/// Connects blocks one by one, all of them or none.
fn connect_all<S: BuildHasher + Copy + Drop>(
    alloc: Global,
    chain: &mut Chain<S>,
    blocks: Vec<Block>,
) -> Result<(), ChainFault>
    ensures ok { OnOk result (chain.new ≡ grown_by chain.old blocks.items) }
    ensures err { OnErr result (chain.new ≡ chain.old) }
    ensures passes { OnOk result (first_failing (blocks_rules chain.old blocks.items) ≡ None) }
    ensures denied { IfErr result (λ fault. Tells fault (first_failing (blocks_rules chain.old blocks.items))) }
{
    let mut connected = 0;
    for block in blocks {
        if let Err(fault) = chain.connect(alloc, block) {
            drop_last(chain, connected);
            return Err(fault);
        }
        connected += 1;
    }
    Ok(())
}

/// Disconnects the last `count` blocks, or all if there are fewer, and gives them back, the lowest first.
fn take_last<S: BuildHasher + Copy + Drop>(
    alloc: Global,
    chain: &mut Chain<S>,
    count: usize,
) -> Result<Vec<Block>, Memory>
    ensures blocks { IfOk result (λ gone. gone.items ≡ last_blocks chain.old count) }
    ensures chain { OnOk result (chain.new ≡ without_last chain.old count) }
    ensures err { OnErr result (chain.new ≡ chain.old) }
{
    let mut gone = Vec::with_capacity(alloc, count)?;
    for _ in 0..count {
        if let Ok(block) = chain.disconnect() {
            let put: Result<_, _> = gone.push(block);
            put.unwrap();
        }
    }
    gone.reverse();
    Ok(gone)
}

/// Whether more blocks are to be disconnected than are connected, or than 100.
fn is_too_deep<S: BuildHasher + Copy + Drop>(chain: &Chain<S>, depth: u64) -> bool
    ensures { result ≡ (nat_lt max_depth depth || nat_lt (length chain.now.blocks) depth) }
{
    depth > MAX_DEPTH || depth > chain.connected() as u64
}

/// What `switch` leaves: the blocks that were disconnected, and the way back.
#[derive(Drop)]
pub struct Switched<S: BuildHasher + Copy + Drop> {
    before: Snapshot<Chain<S>>,
    connected: usize,
    gone: Kept<Block>,
    // What the blocks that were disconnected made, if there are any.
    top: Option<ChainTop<S>>,
}

impl<S: BuildHasher + Copy + Drop> Model for Switched<S> {
    ghost use Rattle.gate_block.specs.Switching.{WayBack, HasTop};

    ghost Value = { WayBack };

    ghost invariant = { λ s. HasTop s.before.value s.gone s.top };

    ghost view = { λ s. record { before = s.before.value; connected = s.connected; gone = s.gone } };
}

impl<S: BuildHasher + Copy + Drop> Switched<S> {
    /// The blocks that were disconnected, the lowest first.
    pub fn gone(&self) -> &[Block]
        ensures { result.now ≡ self.now.gone }
    {
        self.gone.as_slice()
    }

    /// Takes the chain, as the switch left it, back to what it was before. It takes no memory.
    pub fn back(self, chain: &mut Chain<S>)
        requires { LeadsBack self chain.old }
        ensures { chain.new ≡ self.before }
    {
        let Switched {
            connected: on_top,
            gone,
            top,
            ..
        } = self;
        drop_last(chain, on_top);
        if let Some(top) = top {
            chain.restore(top, gone.into_vec());
        }
    }

    /// Leaves the chain as it is, and hands out the blocks that were disconnected, the lowest first. It takes no memory.
    pub fn keep(self) -> Vec<Block>
        ensures { result.items ≡ self.gone }
    {
        let Switched { gone, .. } = self;
        gone.into_vec()
    }
}

/// Connects blocks on top, all of them or none.
fn extend<S: BuildHasher + Copy + Drop>(
    alloc: Global,
    chain: &mut Chain<S>,
    blocks: Vec<Block>,
) -> Result<Switched<S>, ChainFault>
    ensures ok { OnOk result (chain.new ≡ grown_by chain.old blocks.items) }
    ensures gone { IfOk result (λ way. way.gone ≡ []) }
    ensures back { IfOk result (λ way. (way.before ≡ chain.old) × LeadsBack way chain.new) }
    ensures err { OnErr result (chain.new ≡ chain.old) }
    ensures passes { OnOk result (first_failing (blocks_rules chain.old blocks.items) ≡ None) }
    ensures denied { IfErr result (λ fault. Tells fault (first_failing (blocks_rules chain.old blocks.items))) }
{
    let before = Snapshot::of(chain);
    let connected = blocks.len();
    connect_all(alloc, chain, blocks)?;
    Ok(Switched {
        before,
        connected,
        gone: Kept::from_vec(Vec::new(alloc)),
        top: None,
    })
}

/// Disconnects the last `depth` blocks, and gives them back with what they made, which is kept aside.
fn take_off<S: BuildHasher + Copy + Drop>(
    alloc: Global,
    chain: &mut Chain<S>,
    depth: usize,
) -> Result<(ChainTop<S>, Vec<Block>), Memory>
    requires some { 0 < depth }
    requires within { depth ≤ length chain.old.blocks }
    ensures top { IfOk result (λ off. off.0 ≡ record { whole = chain.old; kept = length chain.old.blocks - depth }) }
    ensures blocks { IfOk result (λ off. off.1.items ≡ last_blocks chain.old depth) }
    ensures chain { OnOk result (chain.new ≡ without_last chain.old depth) }
    ensures err { OnErr result (chain.new ≡ chain.old) }
{
    let top = chain.top(alloc, chain.connected() - depth)?;
    match take_last(alloc, chain, depth) {
        Ok(gone) => Ok((top, gone)),
        Err(Memory) => {
            drop(top);
            Err(Memory)
        }
    }
}

/// Puts blocks in the place of the last ones. What the last ones made is kept aside, so that they come back if a new
/// block fails.
fn replace<S: BuildHasher + Copy + Drop>(
    alloc: Global,
    chain: &mut Chain<S>,
    depth: usize,
    blocks: Vec<Block>,
) -> Result<Switched<S>, ChainFault>
    requires some { 0 < depth }
    requires within { depth ≤ length chain.old.blocks }
    ensures ok { OnOk result (chain.new ≡ switched chain.old depth blocks.items) }
    ensures gone { IfOk result (λ way. way.gone ≡ last_blocks chain.old depth) }
    ensures back { IfOk result (λ way. (way.before ≡ chain.old) × LeadsBack way chain.new) }
    ensures err { OnErr result (chain.new ≡ chain.old) }
    ensures passes { OnOk result (first_failing (blocks_rules (without_last chain.old depth) blocks.items) ≡ None) }
    ensures denied { IfErr result (λ fault. Tells fault (first_failing (blocks_rules (without_last chain.old depth) blocks.items))) }
{
    let before = Snapshot::of(chain);
    let connected = blocks.len();
    let (top, gone) = take_off(alloc, chain, depth)?;
    match connect_all(alloc, chain, blocks) {
        Ok(()) => Ok(Switched {
            before,
            connected,
            gone: Kept::from_vec(gone),
            top: Some(top),
        }),
        Err(fault) => {
            chain.restore(top, gone);
            Err(fault)
        }
    }
}

/// Disconnects the last blocks and connects others in their place, one by one. A denial names the first rule that
/// fails: C6 for more blocks than are connected, or than 100, and then for each new block C7, C5, C2 and of each
/// transaction in turn C4 and C3. After any fault the chain is as it was. If blocks are disconnected, the coins that
/// they made are copied.
pub fn switch<S: BuildHasher + Copy + Drop>(
    alloc: Global,
    chain: &mut Chain<S>,
    depth: u64,
    blocks: Vec<Block>,
) -> Result<Switched<S>, ChainFault>
    ensures ok { OnOk result (chain.new ≡ switched chain.old depth blocks.items) }
    ensures gone { IfOk result (λ way. way.gone ≡ last_blocks chain.old depth) }
    ensures before { IfOk result (λ way. way.before ≡ chain.old) }
    ensures way_back { IfOk result (λ way. LeadsBack way chain.new) }
    ensures err { OnErr result (chain.new ≡ chain.old) }
    ensures passes { OnOk result (first_failing (switch_rules chain.old depth blocks.items) ≡ None) }
    ensures denied { IfErr result (λ fault. Tells fault (first_failing (switch_rules chain.old depth blocks.items))) }
{
    if is_too_deep(chain, depth) {
        return Err(ChainFault::Denied(ChainDenial::NoUndo));
    }
    if depth == 0 {
        extend(alloc, chain, blocks)
    } else {
        replace(alloc, chain, depth as usize, blocks)
    }
}

/// The law of blocks that are put in the place of others and taken away again: the chain is as it was, whatever happens.
pub fn switched_and_back<S: BuildHasher + Copy + Drop>(
    alloc: Global,
    chain: &mut Chain<S>,
    depth: u64,
    blocks: Vec<Block>,
) -> Result<(), ChainFault>
    ensures chain { chain.new ≡ chain.old }
    ensures passes { OnOk result (first_failing (switch_rules chain.old depth blocks.items) ≡ None) }
    ensures denied { IfErr result (λ fault. Tells fault (first_failing (switch_rules chain.old depth blocks.items))) }
{
    let way = switch(alloc, chain, depth, blocks)?;
    way.back(chain);
    Ok(())
}
