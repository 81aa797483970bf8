//! Packages that users and peers submit.
ghost use Rattle.std.specs.Prelude.{◌≡◌, if◌then◌else◌, IfOk, None, Some, OnOk, OnErr};
ghost use Rattle.std.specs.List.{list_any};
ghost use Rattle.gate_bytes.specs.Order.{first_failing};
ghost use Rattle.gate_package.specs.Packages.{gone_from};
ghost use Rattle.gate_trim.specs.Expiry.{expired};
ghost use Rattle.gate_trim.specs.Trimming.{trim_of};
ghost use Rattle.gate_message.specs.Replies.{packaged_as};
ghost use Rattle.gate_message.specs.declared.denial.Then.TheVariants.{Close, Keep};
ghost use Rattle.gate_message.specs.declared.reply.Reply.TheVariants.{Denied, Rpc};
ghost use Rattle.gate_core.specs.Packaging.{answer_of, error_of, lacks_method};
ghost use Rattle.gate_core.specs.Access.{package_rules};
ghost use Rattle.gate_core.specs.Pairing.{both_of, closes, package_step};
ghost use Rattle.gate_core.specs.PackageSteps.{CanBeTakenBack, Stages, closed_for, package_in, package_of, pair_in, pair_with, second_of};
ghost use Rattle.gate_core.specs.Planning.{Fits, Plans, world_of};
ghost use Rattle.gate_core.specs.Sessions.{Seated};
ghost use Rattle.gate_pool.specs.Moves.{IsMarked};
ghost use Rattle.gate_pool.specs.Pool.{Pooled};
ghost use Rattle.gate_core.specs.declared.packaging.AskedPackage.TheVariants.{Call as Asked, Pair as Offered};
ghost use Rattle.gate_core.specs.RpcSteps.{replied};

use crate::parts::StateParts;
use crate::planning::Plan;
use crate::session::Sessions;
use gate_admit::{Conditions, Prepared};
use gate_bytes::{Boxed, Copied, Memory};
use gate_message::{Call, Event, PeerDenial, Reply, Then};
use gate_package::{Stage, StagedPackage, Unfit, check_shape, read_members, stage_package};
use gate_rpc::{Command, Id, Method, PackageCall, RpcError, RpcReply, RpcResult};
use gate_rules::PackageDenial;
use gate_standard::Denial;
use gate_submission::{Candidate, Fate, Member, PackageOutcome};
use gate_tx::Txid;
use std::alloc::Global;
use std::hash::BuildHasher;
use std::marker::Model;

/// The reply to a package, whose members stand in the pool, unless it was not judged.
#[derive(Drop)]
pub(crate) struct StagedReply {
    pub(crate) reply: Reply,
    pub(crate) stage: Option<Stage>,
    /// The peer whose session is closed once the package lands.
    pub(crate) closes: Option<u64>,
}

/// A package of a user's call.
#[derive(Drop)]
pub(crate) struct CalledPackage<'a> {
    second: u64,
    id: &'a Id,
    call: &'a PackageCall,
}

impl<'a> Model for CalledPackage<'a> {
    ghost use Rattle.gate_core.specs.Asking.{Called};

    ghost Value = { Called };

    ghost view = { λ c. record { second = c.second; id = c.id.now; call = c.call.now } };
}

/// A package of a peer: a parent and its child.
#[derive(Drop)]
pub(crate) struct PairedPackage<'a> {
    second: u64,
    peer: u64,
    parent: Candidate<'a>,
    child: Candidate<'a>,
}

impl<'a> Model for PairedPackage<'a> {
    ghost use Rattle.std.specs.Prelude.{[], ◌∷◌};
    ghost use Rattle.gate_core.specs.Asking.{Paired};

    ghost Value = { Paired };

    ghost view = { λ p. record { second = p.second; peer = p.peer; members = p.parent ∷ p.child ∷ [] } };
}

/// A package that an event submits where its caller may.
#[derive(Drop)]
pub(crate) enum AskedPackage<'a> {
    Call(CalledPackage<'a>),
    Pair(PairedPackage<'a>),
}

/// The reply of a call that is not judged, and so changes nothing.
fn unstaged(alloc: Global, answer: RpcReply) -> Result<StagedReply, Memory>
    ensures reply { IfOk result (λ staged. staged.reply ≡ Rpc answer) }
    ensures stage { IfOk result (λ staged. staged.stage ≡ None) }
{
    Ok(StagedReply {
        reply: Reply::Rpc(Boxed::new(alloc, answer)?),
        stage: None,
        closes: None,
    })
}

/// The reply to a peer whose package is not judged, and so changes nothing.
fn unjudged_pair(denial: PackageDenial) -> StagedReply
    ensures reply { result.reply ≡ Denied (PeerDenial.Package denial) Keep }
    ensures stage { result.stage ≡ None }
{
    StagedReply {
        reply: Reply::Denied {
            denial: PeerDenial::Package(denial),
            then: Then::Keep,
        },
        stage: None,
        closes: None,
    }
}

/// The reply to a peer whose package stands in the pool, and whose session it closes once it lands, or doesn't.
fn judged_pair(peer: u64, is_closed: bool, outcome: PackageOutcome, stage: Stage) -> StagedReply
    ensures reply { result.reply ≡ packaged_as (if is_closed then Close else Keep) outcome }
    ensures stage { result.stage ≡ Some stage }
    ensures closes { result.closes ≡ (if is_closed then Some peer else None) }
{
    if is_closed {
        StagedReply {
            reply: Reply::of_package(Then::Close, outcome),
            stage: Some(stage),
            closes: Some(peer),
        }
    } else {
        StagedReply {
            reply: Reply::of_package(Then::Keep, outcome),
            stage: Some(stage),
            closes: None,
        }
    }
}

/// Closes the session of this peer, if there is one.
fn close_for(sessions: &mut Sessions, peer: Option<u64>)
    ensures { sessions.new.all ≡ closed_for peer sessions.old.all }
{
    match peer {
        Some(peer) => sessions.close(peer),
        None => (),
    }
}

/// The error of a call with a text that is no transaction, or that burns too much.
fn error_of(unfit: Unfit) -> RpcError
    ensures { result ≡ error_of unfit }
{
    match unfit {
        Unfit::Undecodable => RpcError::Denied(Denial::Decode),
        Unfit::Denied(denial) => RpcError::PackageDenied(denial),
    }
}

/// The answer to a call with this id whose package is denied before its members are judged: J2 is an error of the call.
fn unjudged(alloc: Global, id: Id, denial: PackageDenial) -> RpcReply
    ensures { result ≡ replied id (answer_of denial) }
{
    match denial {
        PackageDenial::NotChildWithParents => RpcReply::Failure {
            id,
            error: RpcError::PackageDenied(denial),
        },
        _ => RpcReply::Answer {
            id,
            result: RpcResult::Package(PackageOutcome::unjudged(alloc, denial)),
        },
    }
}

impl<S: BuildHasher + Copy + Drop> StateParts<S> {
    /// Whether there is no such method: packages are not submitted where the operator doesn't take them.
    pub(crate) fn lacks(&self, method: Method) -> bool
        ensures { result ≡ lacks_method (world_of self.now) method }
    {
        method == Method::SubmitPackage && !self.policy.packages()
    }

    /// The package that a call submits, if its user may.
    fn package_in<'a>(&self, call: &'a Call) -> Option<AskedPackage<'a>>
        ensures { result ≡ package_in (world_of self.now) call.now }
    {
        let Ok(request) = call.request() else {
            return None;
        };
        if self.bars(call) || self.lacks(request.command.method()) {
            return None;
        }
        match &request.command {
            Command::SubmitPackage(submitted) => Some(AskedPackage::Call(CalledPackage {
                second: call.time(),
                id: &request.id,
                call: submitted,
            })),
            _ => None,
        }
    }

    /// The first rule that fails of those that a peer's package is under before it is judged.
    fn denial_of_package(
        &self,
        peer: u64,
        parent: &Prepared,
        child: &Prepared,
    ) -> Option<PeerDenial>
        ensures { result ≡ first_failing (package_rules (world_of self.now) peer parent.now child.now) }
    {
        if let Some(denial) = self.sessions.denial(peer) {
            return Some(denial);
        }
        if self.blocksonly && !self.sessions.flags(peer).relay() {
            return Some(PeerDenial::BlocksOnly);
        }
        if !self.policy.packages() {
            return Some(PeerDenial::NoPackages);
        }
        if parent.transaction().is_none() || child.transaction().is_none() {
            return Some(PeerDenial::Admission(Denial::Decode));
        }
        None
    }

    /// The package that a peer submits, if no rule on the peer fails and both texts are transactions.
    fn pair_in<'a>(
        &self,
        peer: u64,
        now: u64,
        parent: &'a Prepared,
        child: &'a Prepared,
    ) -> Option<AskedPackage<'a>>
        ensures { result ≡ pair_in (world_of self.now) peer now parent.now child.now }
    {
        match self.denial_of_package(peer, parent, child) {
            Some(_) => None,
            None => paired(peer, now, parent, child),
        }
    }

    /// The package that an event submits, if its caller may.
    pub(crate) fn package_of<'a>(&self, event: &'a Event) -> Option<AskedPackage<'a>>
        ensures { result ≡ package_of (world_of self.now) event.now }
    {
        match event {
            Event::Package {
                peer,
                now,
                parent,
                child,
            } => self.pair_in(*peer, *now, parent, child),
            Event::Rpc(call) => self.package_in(call.get()),
            _ => None,
        }
    }

    /// The plan of a peer's package that may not be submitted.
    pub(crate) fn refusing(&self, peer: u64, now: u64, parent: &Prepared, child: &Prepared) -> Plan
        requires { pair_in (world_of self.now) peer now parent.now child.now ≡ None }
        ensures plans { Plans (world_of self.now) (package_step (world_of self.now) peer now parent.now child.now) result }
        ensures fits { (sessions : Seated) (pool : Pooled) → Fits result.change sessions pool }
    {
        match self.denial_of_package(peer, parent, child) {
            Some(denial) => self.denying(peer, denial),
            None => self.denying(peer, PeerDenial::Admission(Denial::Decode)),
        }
    }

    /// Whether what became of a member closes the session of the peer that submitted it.
    fn closes(&self, peer: u64, member: &Member) -> bool
        ensures { result ≡ closes (world_of self.now) peer member.now }
    {
        match &member.fate {
            Fate::Denied(denial) => match self.then_for(peer, PeerDenial::Admission(*denial)) {
                Then::Close => true,
                _ => false,
            },
            _ => false,
        }
    }

    /// Whether what became of one of these members closes the session of the peer that submitted them.
    fn one_closes(&self, peer: u64, members: &[Member]) -> bool
        ensures { result ≡ list_any (closes (world_of self.now) peer) members.now }
    {
        members.iter().any(|member| self.closes(peer, member))
    }

    /// Judges a package and lets its members stand in the pool, with the reply to it if none of them leaves that again.
    /// If memory runs out, nothing changes.
    pub(crate) fn stage(
        &mut self,
        alloc: Global,
        asked: &AskedPackage<'_>,
    ) -> Result<StagedReply, Memory>
        ensures ok { IfOk result (λ staged. Stages (world_of self.old) asked.now staged.reply staged.stage staged.closes (world_of self.new)) }
        ensures back { IfOk result (λ staged. CanBeTakenBack staged.stage self.new.pool self.old.pool.entries) }
        ensures before { IsMarked self.old.pool → OnOk result (self.new.pool.before ≡ self.old.pool.entries) }
        ensures err { OnErr result (world_of self.new ≡ world_of self.old) }
    {
        match asked {
            AskedPackage::Call(called) => self.stage_called(alloc, called),
            AskedPackage::Pair(pair) => self.stage_pair(alloc, pair),
        }
    }

    /// Stages a peer's package.
    fn stage_pair(&mut self, alloc: Global, pair: &PairedPackage<'_>) -> Result<StagedReply, Memory>
        ensures ok { IfOk result (λ staged. Stages (world_of self.old) (Offered pair.now) staged.reply staged.stage staged.closes (world_of self.new)) }
        ensures back { IfOk result (λ staged. CanBeTakenBack staged.stage self.new.pool self.old.pool.entries) }
        ensures before { IsMarked self.old.pool → OnOk result (self.new.pool.before ≡ self.old.pool.entries) }
        ensures err { OnErr result (world_of self.new ≡ world_of self.old) }
    {
        let members = [pair.parent.again(), pair.child.again()];
        if let Some(denial) = check_shape(&self.chain, &self.policy, &members) {
            return Ok(unjudged_pair(denial));
        }
        let under = Conditions {
            chain: &self.chain,
            floor: &self.floor,
            verdicts: &self.verdicts,
            policy: &self.policy,
            second: pair.second,
            budget: self.budget,
        };
        let staged = stage_package(alloc, &under, &mut self.pool, &members, 0)?;
        let StagedPackage { outcome, stage } = staged;
        let is_closed = self.one_closes(pair.peer, outcome.members.as_slice());
        Ok(judged_pair(pair.peer, is_closed, outcome, stage))
    }

    /// Stages a package of a user's call.
    fn stage_called(
        &mut self,
        alloc: Global,
        called: &CalledPackage<'_>,
    ) -> Result<StagedReply, Memory>
        ensures ok { IfOk result (λ staged. Stages (world_of self.old) (Asked called.now) staged.reply staged.stage staged.closes (world_of self.new)) }
        ensures back { IfOk result (λ staged. CanBeTakenBack staged.stage self.new.pool self.old.pool.entries) }
        ensures before { IsMarked self.old.pool → OnOk result (self.new.pool.before ≡ self.old.pool.entries) }
        ensures err { OnErr result (world_of self.new ≡ world_of self.old) }
    {
        let id = called.id.copy(alloc)?;
        let texts = called.call.members.as_slice();
        let members = match read_members(alloc, texts, called.call.max_burn)? {
            Ok(members) => members,
            Err(unfit) => {
                let error = error_of(unfit);
                return unstaged(alloc, RpcReply::Failure { id, error });
            }
        };
        let members = members.as_slice();
        if let Some(denial) = check_shape(&self.chain, &self.policy, members) {
            return unstaged(alloc, unjudged(alloc, id, denial));
        }
        // The reply's memory is there before a member enters.
        let mut answer = Boxed::new(alloc, RpcReply::NotAllowed)?;
        let under = Conditions {
            chain: &self.chain,
            floor: &self.floor,
            verdicts: &self.verdicts,
            policy: &self.policy,
            second: called.second,
            budget: self.budget,
        };
        let max_rate = called.call.max_rate;
        let staged = stage_package(alloc, &under, &mut self.pool, members, max_rate)?;
        let StagedPackage { outcome, stage } = staged;
        let _placeholder = answer.replace(RpcReply::Answer {
            id,
            result: RpcResult::Package(outcome),
        });
        Ok(StagedReply {
            reply: Reply::Rpc(answer),
            stage: Some(stage),
            closes: None,
        })
    }

    /// Lands a package at this second, closes the session of this peer, if there is one, and returns the txids of the
    /// members that have left the pool again. It takes no memory.
    pub(crate) fn land(&mut self, stage: Stage, second: u64, closes: Option<u64>) -> Vec<Txid>
        ensures left { trim_of self.old.policy.incremental_rate self.old.budget (expired self.old.policy.stay second self.old.pool.entries) self.old.floor ≡ record { entries = self.new.pool.entries; floor = self.new.floor } }
        ensures gone { result.items ≡ gone_from self.new.pool.entries stage.held }
        ensures others { world_of self.new ≡ record (world_of self.old) { pool = self.new.pool.entries; floor = self.new.floor; sessions = closed_for closes self.old.sessions.all } }
        ensures before { self.new.pool.before ≡ self.old.pool.before }
    {
        let gone = stage.land(
            &mut self.pool,
            &mut self.floor,
            &self.policy,
            second,
            self.budget,
        );
        close_for(&mut self.sessions, closes);
        gone
    }
}

impl<'a> AskedPackage<'a> {
    /// In seconds since 1970.
    pub(crate) fn second(&self) -> u64
        ensures { result ≡ second_of self.now }
    {
        match self {
            AskedPackage::Call(called) => called.second,
            AskedPackage::Pair(pair) => pair.second,
        }
    }
}

/// The package of a peer, if both texts are transactions.
fn paired<'a>(
    peer: u64,
    now: u64,
    parent: &'a Prepared,
    child: &'a Prepared,
) -> Option<AskedPackage<'a>>
    ensures { result ≡ pair_with peer now (both_of parent.now child.now) }
{
    let parent = parent.candidate()?;
    let child = child.candidate()?;
    Some(AskedPackage::Pair(PairedPackage {
        second: now,
        peer,
        parent,
        child,
    }))
}
