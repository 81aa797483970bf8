//! A submission before it meets a chain and a pool.
ghost use Rattle.std.specs.Prelude.{◌≡◌, None, Some, IfOk, IfSome};
ghost use Rattle.std.specs.Option.{option_map, option_copied};
ghost use Rattle.gate_tx.specs.Reading.{decoded};
ghost use Rattle.gate_tx.specs.Ids.{txid_of, wtxid_of};
ghost use Rattle.gate_tx.specs.Text.{IsTx};
ghost use Rattle.gate_bytes.specs.Order.{first_failing};
ghost use Rattle.gate_submission.specs.Alone.{own_rules, alone_rules, first_denial, denial_by};
ghost use Rattle.gate_submission.specs.Findings.{AreFindings};

use gate_bytes::{Copied, Counted, Exact, Kept, Memory};
use gate_inputs::InputReport;
use gate_standard::{
    Denial, Standards, check_form, check_outputs, check_transaction, check_version,
};
use gate_tx::{Identified, Transaction, TxFault, Txid, Wtxid};
use std::alloc::Global;
use std::marker::Model;

/// A submission before it meets a chain and a pool: contracts see the transaction that its bytes spell, or none.
#[derive(Drop)]
pub struct Prepared {
    identified: Option<Counted<Identified>>,
    findings: Findings,
    reports: Option<Kept<InputReport>>,
}

impl Model for Prepared {
    ghost use Rattle.std.specs.Prelude.{◌≡◌, Option};
    ghost use Rattle.gate_tx.specs.Tx.{Tx};

    ghost Value = { Option Tx };

    ghost use Rattle.gate_submission.specs.Findings.{AreFindingsOf};

    ghost view = { λ p. p.identified };

    ghost invariant = { λ p. AreFindingsOf p.findings p.identified };
}

/// A transaction that is judged, with what was found of it alone, and the reports that were made on its inputs:
/// contracts see the transaction.
#[derive(Drop)]
pub struct Candidate<'a> {
    identified: &'a Counted<Identified>,
    findings: Findings,
    reports: &'a [InputReport],
}

impl<'a> Model for Candidate<'a> {
    ghost use Rattle.std.specs.Prelude.{◌≡◌};
    ghost use Rattle.gate_tx.specs.Tx.{Tx};
    ghost use Rattle.gate_submission.specs.Findings.{AreFindings};

    ghost Value = { Tx };

    ghost view = { λ c. c.identified.now };

    ghost invariant = { λ c. AreFindings c.findings c.identified.now };
}

impl<'a> Candidate<'a> {
    /// The same once more.
    pub fn again(&self) -> Candidate<'a>
        ensures { result ≡ self.now }
    {
        let findings = self.findings;
        Candidate {
            identified: self.identified,
            findings,
            reports: self.reports,
        }
    }

    pub fn identified(&self) -> &'a Counted<Identified>
        ensures { result.now ≡ self.now }
    {
        self.identified
    }

    pub fn transaction(&self) -> &'a Transaction
        ensures { result.now ≡ self.now }
    {
        self.identified.get().transaction()
    }

    pub fn txid(&self) -> Txid
        ensures { result ≡ txid_of self.now }
    {
        self.identified.get().txid()
    }

    pub fn wtxid(&self) -> Wtxid
        ensures { result ≡ wtxid_of self.now }
    {
        self.identified.get().wtxid()
    }

    /// The first of A2 to A11 and A13 to A15 that fails: whatever an operator sets, a rule fails then.
    #[tactic(auto, using(gate_bytes::proofs::OrderLemmas::first_failing_append), unfolding(crate::specs::Alone::own_rules))]
    pub fn denial(&self) -> Option<Denial>
        ensures { result ≡ first_failing (own_rules self.now) }
    {
        match self.findings.transaction {
            Some(denial) => Some(denial),
            None => self.findings.form,
        }
    }

    /// The first of A2 to A19 that fails, by what an operator takes for standard.
    #[tactic(auto, using(gate_bytes::proofs::OrderLemmas::first_failing_append), unfolding(crate::specs::Alone::alone_rules))]
    pub fn denial_by(&self, standards: &Standards) -> Option<Denial>
        ensures { result ≡ first_failing (alone_rules standards.now self.now) }
    {
        let tx = self.identified().get().transaction();
        if let Some(denial) = self.findings.transaction {
            return Some(denial);
        }
        if let Some(denial) = check_version(standards.truc, tx) {
            return Some(denial);
        }
        match self.findings.form {
            Some(denial) => Some(denial),
            None => check_outputs(standards, tx),
        }
    }

    pub fn reports(&self) -> &'a [InputReport] {
        self.reports
    }
}

/// What is found of a transaction alone that no operator sets.
#[derive(Clone, Copy)]
struct Findings {
    /// The first of A2 to A11 that fails.
    transaction: Option<Denial>,
    /// The first of A13 to A15 that fails.
    form: Option<Denial>,
}

impl Findings {
    /// What is found of this transaction; of one that fails A2 to A11 no more is asked.
    fn of(alloc: Global, tx: &Transaction) -> Result<Findings, Memory>
        ensures { IfOk result (λ findings. AreFindings findings tx.now) }
    {
        match check_transaction(alloc, tx)? {
            Some(denial) => Ok(Findings {
                transaction: Some(denial),
                form: None,
            }),
            None => Ok(Findings {
                transaction: None,
                form: check_form(tx),
            }),
        }
    }
}

impl Prepared {
    /// The submission of these bytes; it is denied by A1 if they spell no transaction.
    pub fn new(alloc: Global, bytes: &[u8]) -> Result<Prepared, Memory>
        ensures { IfOk result (λ prepared. prepared ≡ decoded bytes.now) }
    {
        match Identified::read(alloc, bytes) {
            Ok(identified) => Prepared::of(alloc, Counted::new(alloc, identified)?),
            Err(TxFault::Memory) => Err(Memory),
            Err(_) => Ok(Prepared::undecodable()),
        }
    }

    /// The submission of a transaction that was read before, and may have other owners.
    pub fn of(alloc: Global, identified: Counted<Identified>) -> Result<Prepared, Memory>
        ensures { IfOk result (λ prepared. prepared ≡ Some identified) }
    {
        let findings = Findings::of(alloc, identified.get().transaction())?;
        Ok(Prepared {
            identified: Some(identified),
            findings,
            reports: None,
        })
    }

    /// The submission of bytes that spell no transaction.
    pub fn undecodable() -> Prepared
        ensures { result ≡ None }
    {
        Prepared {
            identified: None,
            findings: Findings {
                transaction: None,
                form: None,
            },
            reports: None,
        }
    }

    /// The submission with reports on its inputs that were made beforehand: in the order of the inputs, each for the
    /// input that its piece names. A report that is missing, or is on another input or coin, is made when it is needed.
    pub fn with_reports(self, reports: Kept<InputReport>) -> Prepared
        ensures { result ≡ self }
    {
        let Prepared {
            identified,
            findings,
            reports: _replaced,
        } = self;
        Prepared {
            identified,
            findings,
            reports: Some(reports),
        }
    }

    fn reports(&self) -> &[InputReport] {
        match &self.reports {
            Some(reports) => reports.as_slice(),
            None => &[],
        }
    }

    /// The transaction, as it is judged; None if the bytes spell none.
    pub fn candidate(&self) -> Option<Candidate<'_>>
        ensures { result ≡ self.now }
    {
        let findings = self.findings;
        let reports = self.reports();
        match &self.identified {
            Some(identified) => Some(Candidate {
                identified,
                findings,
                reports,
            }),
            None => None,
        }
    }

    pub fn transaction(&self) -> Option<&Transaction>
        ensures { option_copied result ≡ self.now }
    {
        match &self.identified {
            Some(identified) => Some(identified.get().transaction()),
            None => None,
        }
    }

    /// Recalls for a proof that the transaction has a text: it does nothing.
    pub fn recall_spelled(&self)
        ensures { IfSome self.now IsTx }
    {
        if let Some(identified) = &self.identified {
            identified.get().transaction().recall_invariant();
        }
    }

    pub fn txid(&self) -> Option<Txid>
        ensures { result ≡ option_map txid_of self.now }
    {
        match &self.identified {
            Some(identified) => Some(identified.get().txid()),
            None => None,
        }
    }

    pub fn wtxid(&self) -> Option<Wtxid>
        ensures { result ≡ option_map wtxid_of self.now }
    {
        match &self.identified {
            Some(identified) => Some(identified.get().wtxid()),
            None => None,
        }
    }

    /// The denial by A1, or the first of A2 to A11 and A13 to A15 that fails.
    pub fn denial(&self) -> Option<Denial>
        ensures { result ≡ first_denial self.now }
    {
        match self.candidate() {
            Some(candidate) => candidate.denial(),
            None => Some(Denial::Decode),
        }
    }

    /// The denial by A1, or the first of A2 to A19 that fails, by what an operator takes for standard.
    pub fn denial_by(&self, standards: &Standards) -> Option<Denial>
        ensures { result ≡ denial_by standards.now self.now }
    {
        match self.candidate() {
            Some(candidate) => candidate.denial_by(standards),
            None => Some(Denial::Decode),
        }
    }
}

/// One more owner of the transaction, without its reports, which are made anew when they are needed.
impl Copied for Prepared {
    fn copy(&self, alloc: Global) -> Result<Prepared, Memory> {
        Ok(Prepared {
            identified: self.identified.copy(alloc)?,
            findings: self.findings,
            reports: None,
        })
    }
}

impl PartialEq for Prepared {
    ghost use Rattle.std.proofs.Common.{refl};
    ghost use Rattle.std.specs.Option.{option_eq};
    ghost use Rattle.gate_tx.specs.Equality.{deciding, transaction_decides, tx_in_decides, tx_out_decides};
    ghost use Rattle.gate_submission.specs.Equality.{option_decides};

    ghost eq = { λ a b. option_eq ⟦<Transaction as PartialEq>⟧.eq a b };

    ghost laws = { deciding (option_decides (λ a b. transaction_decides tx_in_decides tx_out_decides a b (⟦<Transaction as PartialEq>⟧.eq a b) refl)) };

    fn eq(&self, other: &Prepared) -> bool {
        match (&self.identified, &other.identified) {
            (Some(one), Some(another)) => one.get().transaction() == another.get().transaction(),
            (None, None) => true,
            _ => false,
        }
    }
}

impl Eq for Prepared {
    ghost use Rattle.std.proofs.Common.{refl};
    ghost use Rattle.gate_tx.specs.Equality.{deciding_all, transaction_decides, tx_in_decides, tx_out_decides};
    ghost use Rattle.gate_submission.specs.Equality.{option_decides};

    ghost laws = { deciding_all (option_decides (λ a b. transaction_decides tx_in_decides tx_out_decides a b (⟦<Transaction as PartialEq>⟧.eq a b) refl)) };
}

impl Exact for Prepared {
    ghost use Rattle.std.proofs.Common.{refl};
    ghost use Rattle.gate_tx.specs.Equality.{transaction_decides, tx_in_decides, tx_out_decides};
    ghost use Rattle.gate_submission.specs.Equality.{option_decides};

    ghost exact = { option_decides (λ a b. transaction_decides tx_in_decides tx_out_decides a b (⟦<Transaction as PartialEq>⟧.eq a b) refl) };
}
