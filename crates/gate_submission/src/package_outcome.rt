//! The outcome of a package: what became of it and of each of its members.
ghost use Rattle.std.specs.Prelude.{◌≡◌, map};
ghost use Rattle.gate_submission.specs.PackageOutcomes.{is_held, left, settled, unjudged, one_left};

use gate_bytes::{Copied, Exact, Kept, Memory};
use gate_rules::PackageDenial;
use gate_standard::Denial;
use gate_tx::{Txid, Wtxid};
use std::alloc::Global;

/// What became of a member.
#[derive(Drop, PartialEq, Eq)]
pub enum Fate {
    /// It came into the pool: it pays `fee` satoshi and takes `vsize` virtual bytes, was judged together with others or
    /// by itself, and has replaced these entries.
    Taken {
        fee: u64,
        vsize: u64,
        together: bool,
        replaced: Kept<Txid>,
    },
    /// It was in the pool already: it pays `fee` satoshi, and takes `vsize` virtual bytes.
    Known {
        fee: u64,
        vsize: u64,
    },
    /// An entry with this wtxid has its txid.
    OtherWitness {
        wtxid: Wtxid,
    },
    /// It is denied by a rule of admission.
    Denied(Denial),
}

/// A member of a package, and what became of it.
#[derive(Drop, PartialEq, Eq)]
pub struct Member {
    pub txid: Txid,
    pub wtxid: Wtxid,
    pub fate: Fate,
}

/// The members that were judged together and came into the pool.
#[derive(Drop, PartialEq, Eq)]
pub struct Together {
    /// What they pay together, in satoshi.
    pub fee: u64,
    /// What they take together, in virtual bytes.
    pub vsize: u64,
    pub wtxids: Kept<Wtxid>,
}

/// What became of a package as a whole.
#[derive(Clone, Copy, PartialEq, Eq)]
pub enum PackageVerdict {
    /// Each member is in the pool.
    Success,
    /// A member is not in the pool.
    Failed,
    /// A rule on the package fails.
    Denied(PackageDenial),
}

/// The outcome of a package.
#[derive(Drop, PartialEq, Eq)]
pub struct PackageOutcome {
    pub verdict: PackageVerdict,
    /// In the order of the package; none if the members were not judged.
    pub members: Kept<Member>,
    /// Those that were judged together, if they came into the pool.
    pub together: Option<Together>,
}

impl Member {
    /// Whether the member was in the pool when the package was judged.
    pub fn is_held(&self) -> bool
        ensures { result ≡ is_held self.now }
    {
        !matches!(&self.fate, Fate::Denied(_))
    }
}

impl PackageOutcome {
    /// The outcome of a package that is denied before a member is judged.
    pub fn unjudged(alloc: Global, denial: PackageDenial) -> PackageOutcome
        ensures { result ≡ unjudged denial }
    {
        PackageOutcome {
            verdict: PackageVerdict::Denied(denial),
            members: Kept::from_vec(Vec::new(alloc)),
            together: None,
        }
    }

    /// Whether a member was held whose txid is one of these.
    fn has_left(&self, gone: &[Txid]) -> bool
        ensures { result ≡ one_left gone.now self.now.members }
    {
        self.members
            .as_slice()
            .iter()
            .any(|member| member.is_held() && gone.contains(&member.txid))
    }

    /// The outcome once these entries have left the pool again: A46 denies each member that was held and is one of them,
    /// and the package has failed then. It takes no memory.
    pub fn settled(self, gone: &[Txid]) -> PackageOutcome
        ensures { result ≡ settled gone.now self }
    {
        let has_left = self.has_left(gone);
        let PackageOutcome {
            verdict,
            members,
            together,
        } = self;
        PackageOutcome {
            verdict: if has_left {
                PackageVerdict::Failed
            } else {
                verdict
            },
            members: settle_all(members, gone),
            together,
        }
    }
}

/// These members, in their memory, once these entries have left the pool again.
fn settle_all(members: Kept<Member>, gone: &[Txid]) -> Kept<Member>
    ensures { result ≡ map (left gone.now) members }
{
    let mut members = members.into_vec();
    for member in members.iter_mut() {
        settle(member, gone);
    }
    Kept::from_vec(members)
}

/// Denies a member by A46 if it was held and is one of these.
fn settle(member: &mut Member, gone: &[Txid])
    ensures { member.new ≡ left gone.now member.old }
{
    if member.is_held() && gone.contains(&member.txid) {
        member.fate = Fate::Denied(Denial::MempoolFull);
    }
}

impl Copied for Fate {
    fn copy(&self, alloc: Global) -> Result<Fate, Memory> {
        match self {
            Fate::Taken {
                fee,
                vsize,
                together,
                replaced,
            } => Ok(Fate::Taken {
                fee: *fee,
                vsize: *vsize,
                together: *together,
                replaced: replaced.copy(alloc)?,
            }),
            Fate::Known { fee, vsize } => Ok(Fate::Known {
                fee: *fee,
                vsize: *vsize,
            }),
            Fate::OtherWitness { wtxid } => Ok(Fate::OtherWitness { wtxid: *wtxid }),
            Fate::Denied(denial) => Ok(Fate::Denied(*denial)),
        }
    }
}

impl Copied for Member {
    fn copy(&self, alloc: Global) -> Result<Member, Memory> {
        Ok(Member {
            txid: self.txid,
            wtxid: self.wtxid,
            fate: self.fate.copy(alloc)?,
        })
    }
}

impl Copied for Together {
    fn copy(&self, alloc: Global) -> Result<Together, Memory> {
        Ok(Together {
            fee: self.fee,
            vsize: self.vsize,
            wtxids: self.wtxids.copy(alloc)?,
        })
    }
}

impl Copied for PackageOutcome {
    fn copy(&self, alloc: Global) -> Result<PackageOutcome, Memory> {
        let members = self.members.copy(alloc)?;
        match self.together.copy(alloc) {
            Ok(together) => Ok(PackageOutcome {
                verdict: self.verdict,
                members,
                together,
            }),
            Err(fault) => {
                drop(members);
                Err(fault)
            }
        }
    }
}

impl Exact for Fate {
    ghost use Rattle.std.specs.Cmp.{booleans_Decides};
    ghost use Rattle.std.proofs.lemmas.Bool.Decides.{Decides-eqb};
    ghost use Rattle.std.proofs.lemmas.Slice.Eq.{bytes_eq-Decides};
    ghost use Rattle.gate_tx.specs.Equality.{items_decides};
    ghost use Rattle.gate_rules.specs.contracts.denial.Denial.{enum as denials};
    ghost use Rattle.gate_submission.specs.contracts.package_outcome.Fate.{enum};
    ghost use Rattle.gate_bytes.specs.Equality.{enum_decides, ◌or◌, ◌&◌, last_decides, bare_decides};

    ghost exact = { enum_decides enum _ (Decides-eqb & Decides-eqb & booleans_Decides & last_decides items_decides
        or Decides-eqb & last_decides Decides-eqb
        or last_decides bytes_eq-Decides
        or last_decides (bare_decides denials tt)
        or tt) };
}

impl Exact for Member {
    ghost use Rattle.std.proofs.lemmas.Slice.Eq.{bytes_eq-Decides};
    ghost use Rattle.gate_submission.specs.contracts.package_outcome.FateExact.TheImpl.Laws.{exact-law as fate_decides};
    ghost use Rattle.gate_submission.specs.contracts.package_outcome.Member.{the_type};
    ghost use Rattle.gate_bytes.specs.Equality.{struct_decides, ◌&◌, last_decides};

    ghost exact = { struct_decides the_type (bytes_eq-Decides & bytes_eq-Decides & last_decides fate_decides) };
}

impl Exact for Together {
    ghost use Rattle.std.proofs.lemmas.Bool.Decides.{Decides-eqb};
    ghost use Rattle.gate_tx.specs.Equality.{items_decides};
    ghost use Rattle.gate_submission.specs.contracts.package_outcome.Together.{the_type};
    ghost use Rattle.gate_bytes.specs.Equality.{struct_decides, ◌&◌, last_decides};

    ghost exact = { struct_decides the_type (Decides-eqb & Decides-eqb & last_decides items_decides) };
}

impl Exact for PackageVerdict {
    ghost use Rattle.gate_rules.specs.contracts.package.PackageDenial.{enum as denials};
    ghost use Rattle.gate_submission.specs.contracts.package_outcome.PackageVerdict.{enum};
    ghost use Rattle.gate_bytes.specs.Equality.{enum_decides, ◌or◌, none_decides, last_decides, bare_decides};

    ghost exact = { enum_decides enum _ (none_decides or none_decides or last_decides (bare_decides denials tt) or tt) };
}

impl Exact for PackageOutcome {
    ghost use Rattle.gate_submission.specs.Equality.{option_decides, list_decides};
    ghost use Rattle.gate_submission.specs.contracts.package_outcome.MemberExact.TheImpl.Laws.{exact-law as member_decides};
    ghost use Rattle.gate_submission.specs.contracts.package_outcome.TogetherExact.TheImpl.Laws.{exact-law as together_decides};
    ghost use Rattle.gate_submission.specs.contracts.package_outcome.PackageVerdictExact.TheImpl.Laws.{exact-law as verdict_decides};
    ghost use Rattle.gate_submission.specs.contracts.package_outcome.PackageOutcome.{the_type};
    ghost use Rattle.gate_bytes.specs.Equality.{struct_decides, ◌&◌, last_decides};

    ghost exact = { struct_decides the_type (verdict_decides & list_decides member_decides & last_decides (option_decides together_decides)) };
}
