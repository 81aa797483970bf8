//! What a caller asks.
ghost use Rattle.std.specs.Prelude.{◌≡◌, ◌↔◌, IsTrue, IfOk};

use crate::call::Call;
use crate::caller::Caller;
use crate::chain_event::ChainEvent;
use crate::switch::Switch;
use gate_bytes::{Copied, Counted, Exact, Memory, Text};
use gate_net::Address;
use gate_submission::Prepared;
use std::alloc::Global;

/// One request to the gate. A peer is named by a number that its first `Enter` takes for good.
#[derive(Drop, PartialEq, Eq)]
pub enum Event {
    /// A peer enters, from this address.
    Enter {
        peer: u64,
        address: Address,
    },
    /// A peer leaves, which closes its session.
    Leave {
        peer: u64,
    },
    /// A peer submits a transaction at this second.
    Tx {
        peer: u64,
        now: u64,
        transaction: Prepared,
    },
    /// A peer submits a parent with its child at this second.
    Package {
        peer: u64,
        now: u64,
        parent: Prepared,
        child: Prepared,
    },
    /// A peer asks for the txids in the pool (BIP 35).
    Mempool {
        peer: u64,
    },
    /// A peer asks for the block at a height.
    GetBlock {
        peer: u64,
        height: u32,
    },
    /// A peer asks for the headers above a height.
    Headers {
        peer: u64,
        height: u32,
    },
    /// A peer asks that its listings leave out entries that pay less, in satoshi per 1,000 virtual bytes (BIP 133).
    FeeFilter {
        peer: u64,
        rate: u64,
    },
    /// A user calls by RPC.
    Rpc(Counted<Call>),
    /// The operator sets the pool's floor, in satoshi per 1,000 virtual bytes.
    SetFloor {
        rate: u64,
    },
    /// The operator turns a switch on or off.
    Set {
        switch: Switch,
        on: bool,
    },
    /// The chain's caller changes the chain, or what is known of it.
    Chain(ChainEvent),
}

impl Event {
    ghost use Rattle.gate_message.specs.Callers.{caller_of};

    /// Who makes the event.
    pub fn caller(&self, alloc: Global) -> Result<Caller, Memory>
        ensures { IfOk result (λ caller. caller ≡ caller_of self.now) }
    {
        match self {
            Event::Enter { peer, .. } => Ok(Caller::Peer(*peer)),
            Event::Leave { peer } => Ok(Caller::Peer(*peer)),
            Event::Tx { peer, .. } => Ok(Caller::Peer(*peer)),
            Event::Package { peer, .. } => Ok(Caller::Peer(*peer)),
            Event::Mempool { peer } => Ok(Caller::Peer(*peer)),
            Event::GetBlock { peer, .. } => Ok(Caller::Peer(*peer)),
            Event::Headers { peer, .. } => Ok(Caller::Peer(*peer)),
            Event::FeeFilter { peer, .. } => Ok(Caller::Peer(*peer)),
            Event::Rpc(call) => {
                let user = String::from_str(alloc, call.get().user())?;
                Ok(Caller::User(Text::from_string(user)))
            }
            Event::SetFloor { .. } => Ok(Caller::Operator),
            Event::Set { .. } => Ok(Caller::Operator),
            Event::Chain(_) => Ok(Caller::Chain),
        }
    }
}

impl Event {
    ghost use Rattle.gate_message.specs.Callers.{caller_of, peer_of};

    /// The peer that makes the event, if one does.
    fn peer(&self) -> Option<u64>
        ensures { result ≡ peer_of (caller_of self.now) }
    {
        match self {
            Event::Enter { peer, .. } => Some(*peer),
            Event::Leave { peer } => Some(*peer),
            Event::Tx { peer, .. } => Some(*peer),
            Event::Package { peer, .. } => Some(*peer),
            Event::Mempool { peer } => Some(*peer),
            Event::GetBlock { peer, .. } => Some(*peer),
            Event::Headers { peer, .. } => Some(*peer),
            Event::FeeFilter { peer, .. } => Some(*peer),
            Event::Rpc(_) => None,
            Event::SetFloor { .. } => None,
            Event::Set { .. } => None,
            Event::Chain(_) => None,
        }
    }

    /// Whether this caller makes the event.
    pub fn is_of(&self, caller: &Caller) -> bool
        ensures { IsTrue result ↔ (caller_of self.now ≡ caller.now) }
    {
        match caller {
            Caller::Peer(number) => self.peer() == Some(*number),
            Caller::User(name) => match self {
                Event::Rpc(call) => call.get().user() == name.as_str(),
                _ => false,
            },
            Caller::Operator => match self {
                Event::SetFloor { .. } => true,
                Event::Set { .. } => true,
                _ => false,
            },
            Caller::Chain => match self {
                Event::Chain(_) => true,
                _ => false,
            },
        }
    }
}

impl Event {
    ghost use Rattle.gate_message.specs.Spelled.{IsSpelled};

    /// Recalls for a proof that the event's transactions have a text: it does nothing.
    pub fn recall_spelled(&self)
        ensures { IsSpelled self.now }
    {
        match self {
            Event::Tx { transaction, .. } => transaction.recall_spelled(),
            Event::Package { parent, child, .. } => {
                parent.recall_spelled();
                child.recall_spelled();
            }
            Event::Rpc(call) => call.get().recall_spelled(),
            Event::Chain(event) => event.recall_spelled(),
            _ => (),
        }
    }
}

/// A copy of a peer's package.
fn copied_package(
    alloc: Global,
    peer: u64,
    now: u64,
    parent: &Prepared,
    child: &Prepared,
) -> Result<Event, Memory>
    ensures { IfOk result (λ event. event ≡ Event.Package peer now parent.now child.now) }
{
    let parent = parent.copy(alloc)?;
    match child.copy(alloc) {
        Ok(child) => Ok(Event::Package {
            peer,
            now,
            parent,
            child,
        }),
        Err(fault) => {
            drop(parent);
            Err(fault)
        }
    }
}

impl Copied for Event {
    fn copy(&self, alloc: Global) -> Result<Event, Memory> {
        match self {
            Event::Enter { peer, address } => Ok(Event::Enter {
                peer: *peer,
                address: *address,
            }),
            Event::Leave { peer } => Ok(Event::Leave { peer: *peer }),
            Event::Tx {
                peer,
                now,
                transaction,
            } => Ok(Event::Tx {
                peer: *peer,
                now: *now,
                transaction: transaction.copy(alloc)?,
            }),
            Event::Package {
                peer,
                now,
                parent,
                child,
            } => copied_package(alloc, *peer, *now, parent, child),
            Event::Mempool { peer } => Ok(Event::Mempool { peer: *peer }),
            Event::GetBlock { peer, height } => Ok(Event::GetBlock {
                peer: *peer,
                height: *height,
            }),
            Event::Headers { peer, height } => Ok(Event::Headers {
                peer: *peer,
                height: *height,
            }),
            Event::FeeFilter { peer, rate } => Ok(Event::FeeFilter {
                peer: *peer,
                rate: *rate,
            }),
            Event::Rpc(call) => Ok(Event::Rpc(call.copy(alloc)?)),
            Event::SetFloor { rate } => Ok(Event::SetFloor { rate: *rate }),
            Event::Set { switch, on } => Ok(Event::Set {
                switch: *switch,
                on: *on,
            }),
            Event::Chain(event) => Ok(Event::Chain(event.copy(alloc)?)),
        }
    }
}

impl Exact for Event {
    ghost use Rattle.std.specs.Cmp.{booleans_Decides};
    ghost use Rattle.std.proofs.lemmas.Bool.Decides.{Decides-eqb};
    ghost use Rattle.gate_submission.specs.contracts.prepared.PreparedExact.TheImpl.Laws.{exact-law as prepared_decides};
    ghost use Rattle.gate_bytes.specs.Equality.{enum_decides, ◌or◌, ◌&◌, last_decides, bare_decides};
    ghost use Rattle.gate_message.specs.Equality.{address_decides, call_decides};
    ghost use Rattle.gate_message.specs.contracts.chain_event.ChainEventExact.TheImpl.Laws.{exact-law as chain_event_decides};
    ghost use Rattle.gate_message.specs.contracts.switch.Switch.{enum as switches};
    ghost use Rattle.gate_message.specs.contracts.event.Event.{enum};

    ghost exact = { enum_decides enum _ (Decides-eqb & last_decides address_decides
        or last_decides Decides-eqb
        or Decides-eqb & Decides-eqb & last_decides prepared_decides
        or Decides-eqb & Decides-eqb & prepared_decides & last_decides prepared_decides
        or last_decides Decides-eqb
        or Decides-eqb & last_decides Decides-eqb
        or Decides-eqb & last_decides Decides-eqb
        or Decides-eqb & last_decides Decides-eqb
        or last_decides call_decides
        or last_decides Decides-eqb
        or bare_decides switches tt & last_decides booleans_Decides
        or last_decides chain_event_decides
        or tt) };
}
