//! The totals of the events of a run, by their replies.
use crate::counted_noun::CountedNoun;
use crate::denied::{members_in, outcomes_in, rule_in};
use gate_bytes::Memory;
use gate_figures::Explained;
use gate_message::{ChainEvent, Event, Reply};
use gate_rpc::{Outcome, RpcReply, RpcResult};
use gate_rules::{Rule, rules};
use gate_submission::Fate;
use std::alloc::Global;
use std::cell::Cell;

/// How often a rule was named.
#[derive(Drop)]
struct RuleCount {
    rule: &'static str,
    times: Cell<u64>,
}

/// How many coins and verdicts were learnt, and how many blocks were forgotten.
#[derive(Drop)]
struct Learning {
    coins: Cell<u64>,
    verdicts: Cell<u64>,
    blocks: Cell<u64>,
}

impl Learning {
    fn new() -> Learning {
        Learning {
            coins: Cell::new(0),
            verdicts: Cell::new(0),
            blocks: Cell::new(0),
        }
    }

    /// Counts what an event of the chain taught or let forget, by its reply.
    fn count(&self, event: &Event, reply: &Reply) {
        match (event, reply) {
            (Event::Chain(ChainEvent::LearnCoin(_)), Reply::Set) => add(&self.coins, 1),
            (Event::Chain(ChainEvent::LearnVerdict(_)), Reply::Set) => add(&self.verdicts, 1),
            (_, Reply::Forgotten { blocks, .. }) => add(&self.blocks, *blocks),
            _ => {}
        }
    }

    /// Appends the counts, if one of them is not 0.
    fn push_text(&self, text: &mut String) -> Result<(), Memory> {
        let (coins, verdicts, blocks) = (self.coins.get(), self.verdicts.get(), self.blocks.get());
        if coins > 0 || verdicts > 0 || blocks > 0 {
            write!(
                text,
                ", learnt {} and {}, forgot {}",
                CountedNoun::new(coins, "coin", "coins"),
                CountedNoun::new(verdicts, "verdict", "verdicts"),
                CountedNoun::new(blocks, "block", "blocks")
            )?;
        }
        Ok(())
    }
}

/// The totals of the events of a run, which grow while it is lent.
#[derive(Drop)]
pub(crate) struct EventTotals {
    alloc: Global,
    events: Cell<u64>,
    admitted: Cell<u64>,
    replaced: Cell<u64>,
    denied: Cell<u64>,
    learning: Learning,
    faults: Cell<u64>,
    /// The count of each rule, in the order of the rules.
    counts: Vec<RuleCount>,
}

fn add(count: &Cell<u64>, more: u64) {
    count.set(count.get().saturating_add(more));
}

/// Whether a reply says that a transaction entered.
fn lets_enter(reply: &Reply) -> bool {
    match reply {
        Reply::Admitted { .. } => true,
        Reply::Rpc(answer) => match answer.get() {
            RpcReply::Answer {
                result: RpcResult::Sent(_),
                ..
            } => true,
            _ => false,
        },
        _ => false,
    }
}

/// How many entries the transaction replaced that entered by this reply.
fn replaced_by(explained: &Option<Explained>, reply: &Reply) -> u64 {
    match (reply, explained) {
        (Reply::Admitted { replaced, .. }, _) => *replaced,
        (_, Some(Ok(grant))) => grant.replaced,
        _ => 0,
    }
}

/// A count for each rule that there is.
fn no_counts(alloc: Global) -> Result<Vec<RuleCount>, Memory> {
    let table = rules(alloc)?;
    let mut counts = Vec::with_capacity(alloc, table.len())?;
    for rule in table.as_slice() {
        counts.push(RuleCount {
            rule: rule.name,
            times: Cell::new(0),
        })?;
    }
    Ok(counts)
}

impl EventTotals {
    /// The totals before the first event. Without memory for it, the rules are not counted one by one.
    pub(crate) fn new(alloc: Global) -> EventTotals {
        let counts = match no_counts(alloc) {
            Ok(counts) => counts,
            Err(_) => Vec::new(alloc),
        };
        EventTotals {
            alloc,
            events: Cell::new(0),
            admitted: Cell::new(0),
            replaced: Cell::new(0),
            denied: Cell::new(0),
            learning: Learning::new(),
            faults: Cell::new(0),
            counts,
        }
    }

    /// How many events there were.
    pub(crate) fn events(&self) -> u64 {
        self.events.get()
    }

    /// Counts an event by its reply, each transaction that a list was denied, and each member of a package. How many entries
    /// a user's transaction replaced is known from the explanation alone.
    pub(crate) fn count(&self, event: &Event, explained: &Option<Explained>, reply: &Reply) {
        add(&self.events, 1);
        self.learning.count(event, reply);
        if lets_enter(reply) {
            add(&self.admitted, 1);
            add(&self.replaced, replaced_by(explained, reply));
        }
        if let Some(rule) = rule_in(reply) {
            self.count_rule(rule);
        }
        for outcome in outcomes_in(reply) {
            if let Outcome::Rejected { denial, .. } = outcome {
                self.count_rule(denial.row());
            }
        }
        for member in members_in(reply) {
            self.count_member(&member.fate);
        }
    }

    /// Counts an event in whose step memory ran out.
    pub(crate) fn count_fault(&self) {
        add(&self.events, 1);
        add(&self.faults, 1);
    }

    /// Counts what became of a member of a package.
    fn count_member(&self, fate: &Fate) {
        match fate {
            Fate::Taken { replaced, .. } => {
                add(&self.admitted, 1);
                add(&self.replaced, replaced.as_slice().len() as u64);
            }
            Fate::Denied(denial) => self.count_rule(denial.row()),
            _ => {}
        }
    }

    /// Counts a denial by this rule.
    fn count_rule(&self, rule: &Rule) {
        add(&self.denied, 1);
        for count in self.counts.as_slice() {
            if count.rule == rule.name {
                add(&count.times, 1);
                return;
            }
        }
    }

    /// How often each rule was named, in parentheses; empty if none was.
    fn rules_text(&self) -> Result<String, Memory> {
        let mut text = String::new(self.alloc);
        for count in self.counts.as_slice() {
            let times = count.times.get();
            if times > 0 {
                let before = if text.is_empty() { " (" } else { ", " };
                write!(text, "{before}{} {times}", count.rule)?;
            }
        }
        if !text.is_empty() {
            text.push(')')?;
        }
        Ok(text)
    }

    /// `812 events: 640 admitted, 12 replaced, 160 denied (A25 90, A35 70)`, then `learnt 40 coins and 2 verdicts, forgot 3
    /// blocks` if there was any of these, and how often memory ran out, if it did.
    pub(crate) fn text(&self) -> Result<String, Memory> {
        let rules = self.rules_text()?;
        let mut text = format!(in self.alloc;
            "{}: {} admitted, {} replaced, {} denied{rules}",
            CountedNoun::new(self.events.get(), "event", "events"),
            self.admitted.get(),
            self.replaced.get(),
            self.denied.get()
        )?;
        self.learning.push_text(&mut text)?;
        let faults = self.faults.get();
        if faults > 0 {
            write!(text, ", {faults} out of memory")?;
        }
        Ok(text)
    }

    /// The same as fields of an object, all of them.
    pub(crate) fn fields(&self) -> Result<String, Memory> {
        let mut rules = String::new(self.alloc);
        for count in self.counts.as_slice() {
            let times = count.times.get();
            if times > 0 {
                let before = if rules.is_empty() { "" } else { "," };
                write!(rules, "{before}\"{}\":{times}", count.rule)?;
            }
        }
        Ok(format!(in self.alloc;
            "\"events\":{},\"admitted\":{},\"replaced\":{},\"denied\":{},\"rules\":{{{rules}}},\"learnt_coins\":{},\"learnt_verdicts\":{},\"forgotten_blocks\":{},\"out_of_memory\":{}",
            self.events.get(),
            self.admitted.get(),
            self.replaced.get(),
            self.denied.get(),
            self.learning.coins.get(),
            self.learning.verdicts.get(),
            self.learning.blocks.get(),
            self.faults.get()
        )?)
    }
}
