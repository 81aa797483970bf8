//! What the lines of an opening have said so far.
ghost use Rattle.std.specs.Prelude.{◌≡◌, ◌≢◌, Ok, Err, IfOk, IfErr};
ghost use Rattle.gate_core.specs.Good.{IsGoodWorld};
ghost use Rattle.gate_opening.specs.OpeningLines.{said_by};
ghost use Rattle.gate_opening.specs.Said.{exceeds, is_past, is_said, nothing_said, opened_from, opening_of, switch_in, with_line, with_text, Takes};

use crate::opening_fault::{OpeningFault, OpeningToken, at_line};
use crate::opening_line::{MAX_HEIGHT, OpeningLine, read_opening_line};
use crate::times::{append_times, times_fit};
use gate_admit::{OpeningCoin, Verdicts};
use gate_bytes::{Kept, Memory, Text};
use gate_core::{Opening, State};
use gate_lines::is_blank_or_comment;
use gate_net::{NetDenial, Whitelist, WhitelistEntry};
use gate_register::{COUNT, Policy, Setting};
use gate_release::Release;
use gate_rpc::RpcWhitelist;
use std::alloc::Global;
use std::hash::BuildHasher;
use std::marker::Model;

/// The most block times of an opening.
const MAX_TIMES: u64 = 1_000_000;

/// The budget of an opening that names none, in virtual bytes.
const DEFAULT_BUDGET: u64 = 300_000_000;

/// What the lines of an opening have said so far: contracts see a record of it. After a fault it holds nothing of use.
#[derive(Drop)]
pub(crate) struct OpeningDraft<S: BuildHasher + Copy + Drop> {
    budget: Option<u64>,
    /// The height of the first time.
    from: Option<u32>,
    times: Vec<u32>,
    coins: Vec<OpeningCoin>,
    /// The line of each coin.
    coin_lines: Vec<u64>,
    verdicts: Verdicts<S>,
    whitelist: Vec<WhitelistEntry>,
    rpcwhitelist: Vec<Text>,
    /// The release whose numbers hold where no line says another.
    release: Option<Release>,
    /// Whether a line said each setting, in their order.
    said: [bool; COUNT],
    /// The policy by the settings that were said and the release.
    policy: Policy,
}

impl<S: BuildHasher + Copy + Drop> Model for OpeningDraft<S> {
    ghost use Rattle.gate_opening.specs.Said.{Said};

    ghost Value = { Said };

    ghost view = { λ d. record {
      budget = d.budget;
      from = d.from;
      times = d.times.items;
      coins = d.coins.items;
      coin_lines = d.coin_lines.items;
      rows = d.verdicts.rows;
      other = d.verdicts.other;
      whitelist = d.whitelist.items;
      rpcwhitelist = d.rpcwhitelist.items;
      release = d.release;
      said = d.said;
      policy = d.policy;
    } };
}

impl<S: BuildHasher + Copy + Drop> OpeningDraft<S> {
    pub(crate) fn new(alloc: Global, hasher: S) -> OpeningDraft<S>
        ensures { result ≡ nothing_said }
    {
        OpeningDraft {
            budget: None,
            from: None,
            times: Vec::new(alloc),
            coins: Vec::new(alloc),
            coin_lines: Vec::new(alloc),
            verdicts: Verdicts::new(alloc, hasher),
            whitelist: Vec::new(alloc),
            rpcwhitelist: Vec::new(alloc),
            release: None,
            said: [false; COUNT],
            policy: Policy::default(),
        }
    }

    /// Adds what a line says, by its number, from 1. The line isn't the one that ends the opening.
    pub(crate) fn take(
        &mut self,
        alloc: Global,
        number: u64,
        line: &[u8],
    ) -> Result<(), OpeningFault>
        ensures { Takes result self.new (with_text self.old number line.now) }
    {
        if is_blank_or_comment(line) {
            return Ok(());
        }
        match said_on(alloc, line) {
            Ok(Some(said)) => self.add(number, said),
            Ok(None) => Err(OpeningFault::Line(number, OpeningToken::BadLine)),
            Err(_) => Err(OpeningFault::Memory),
        }
    }

    fn add(&mut self, number: u64, line: OpeningLine) -> Result<(), OpeningFault>
        ensures { Takes result self.new (with_line self.old number line) }
    {
        match line {
            OpeningLine::Budget(budget) => {
                if self.budget.is_some() {
                    return Err(OpeningFault::Line(number, OpeningToken::BadLine));
                }
                self.budget = Some(budget);
                Ok(())
            }
            OpeningLine::From(height) => self.begin_at(number, height),
            OpeningLine::Times { count, first, step } => self.add_times(number, count, first, step),
            OpeningLine::Coin(coin) => self.add_coin(number, coin),
            OpeningLine::Verdict(row) => match self.verdicts.add(row) {
                Ok(true) => Ok(()),
                Ok(false) => Err(OpeningFault::Line(number, OpeningToken::BadLine)),
                Err(_) => Err(OpeningFault::Memory),
            },
            OpeningLine::OtherVerdicts(verdict) => {
                if self.verdicts.other().is_some() {
                    return Err(OpeningFault::Line(number, OpeningToken::BadLine));
                }
                self.verdicts.answer_others(verdict);
                Ok(())
            }
            OpeningLine::Whitelist(entry) => self.add_entry(number, entry),
            OpeningLine::RpcWhitelist(text) => match self.rpcwhitelist.push(text) {
                Ok(()) => Ok(()),
                Err(_) => Err(OpeningFault::Memory),
            },
            OpeningLine::Defaults(release) => self.take_defaults(number, release),
            OpeningLine::Number(setting, value) => self.set(number, setting, value),
        }
    }

    /// Sets the height of the first time.
    fn begin_at(&mut self, number: u64, height: u32) -> Result<(), OpeningFault>
        ensures { Takes result self.new (with_line self.old number (OpeningLine.From height)) }
    {
        if self.from.is_some() {
            return Err(OpeningFault::Line(number, OpeningToken::BadLine));
        }
        if is_past(height, self.times.len(), 0) {
            return Err(OpeningFault::Line(number, OpeningToken::TimesLimit));
        }
        self.from = Some(height);
        Ok(())
    }

    fn add_times(
        &mut self,
        number: u64,
        count: u64,
        first: u32,
        step: u64,
    ) -> Result<(), OpeningFault>
        ensures { Takes result self.new (with_line self.old number (OpeningLine.Times count first step)) }
    {
        let held = self.times.len();
        if exceeds(held, count, first, step) || is_past(self.from.unwrap_or(0), held, count) {
            return Err(OpeningFault::Line(number, OpeningToken::TimesLimit));
        }
        match append_times(&mut self.times, count, first, step) {
            Ok(()) => Ok(()),
            Err(_) => Err(OpeningFault::Memory),
        }
    }

    fn add_coin(&mut self, number: u64, coin: OpeningCoin) -> Result<(), OpeningFault>
        ensures { Takes result self.new (with_line self.old number (OpeningLine.Coin coin)) }
    {
        if self.coins.push(coin).is_err() || self.coin_lines.push(number).is_err() {
            return Err(OpeningFault::Memory);
        }
        Ok(())
    }

    fn add_entry(
        &mut self,
        number: u64,
        entry: Result<WhitelistEntry, NetDenial>,
    ) -> Result<(), OpeningFault>
        ensures { Takes result self.new (with_line self.old number (OpeningLine.Whitelist entry)) }
    {
        match entry {
            Ok(entry) => match self.whitelist.push(entry) {
                Ok(()) => Ok(()),
                Err(_) => Err(OpeningFault::Memory),
            },
            Err(denial) => Err(OpeningFault::Line(number, OpeningToken::Whitelist(denial))),
        }
    }

    /// Takes a release's numbers for all settings that no line said; a line behind this one sets its own.
    fn take_defaults(&mut self, number: u64, release: Release) -> Result<(), OpeningFault>
        ensures { Takes result self.new (with_line self.old number (OpeningLine.Defaults release)) }
    {
        if self.release.is_some() {
            return Err(OpeningFault::Line(number, OpeningToken::BadLine));
        }
        self.release = Some(release);
        self.policy = release.beside(self.policy, &self.said);
        Ok(())
    }

    /// Sets a number of the policy.
    fn set(&mut self, number: u64, setting: Setting, value: u64) -> Result<(), OpeningFault>
        ensures { Takes result self.new (with_line self.old number (OpeningLine.Number setting value)) }
    {
        if self.is_said(setting) {
            return Err(OpeningFault::Line(number, OpeningToken::BadLine));
        }
        let Some(policy) = self.policy.with(setting, value) else {
            return Err(OpeningFault::Line(number, OpeningToken::BadLine));
        };
        self.said[setting.place()] = true;
        self.policy = policy;
        Ok(())
    }

    /// Whether a line said this setting.
    fn is_said(&self, setting: Setting) -> bool
        ensures { result ≡ is_said self.now setting }
    {
        self.said[setting.place()]
    }

    /// A switch, if a line said it.
    fn switch(&self, setting: Setting) -> Option<bool>
        ensures { result ≡ switch_in self.now setting }
    {
        self.is_said(setting).then_some(self.policy.is_on(setting))
    }

    /// What a gate is opened with, and the line of each coin.
    fn opening(self, alloc: Global) -> Result<(Opening<S>, Vec<u64>), Memory>
        ensures { IfOk result (λ p. (p.0 ≡ opening_of self) × (p.1.items ≡ self.coin_lines)) }
    {
        let policy = gate_admit::Policy::new(self.policy);
        let blocksonly = self.policy.is_on(Setting::BlocksOnly);
        let bloom = self.policy.is_on(Setting::Bloom);
        let relay = self.switch(Setting::WhitelistRelay).unwrap_or(!blocksonly);
        let forcerelay = self.policy.is_on(Setting::WhitelistForceRelay);
        let is_default_on = self.switch(Setting::RpcWhitelistDefault);
        let OpeningDraft {
            budget,
            from,
            times,
            coins,
            coin_lines,
            verdicts,
            whitelist,
            rpcwhitelist,
            release: _,
            said: _,
            policy: _,
        } = self;
        let lists = RpcWhitelist::parse(alloc, rpcwhitelist.as_slice(), is_default_on)?;
        let opening = Opening {
            budget: budget.unwrap_or(DEFAULT_BUDGET),
            policy,
            first: from.unwrap_or(0),
            coins: Kept::from_vec(coins),
            times: Kept::from_vec(times),
            verdicts,
            whitelist: Whitelist {
                entries: Kept::from_vec(whitelist),
                relay,
                forcerelay,
            },
            rpcwhitelist: lists,
            blocksonly,
            bloom,
        };
        Ok((opening, coin_lines))
    }

    /// The state of the opening, or the first fault of its times and coins.
    pub(crate) fn open(self, alloc: Global, hasher: S) -> Result<State<S>, OpeningFault>
        ensures opened { IfOk result (λ state. opened_from self ≡ Ok state) }
        ensures good { IfOk result IsGoodWorld }
        ensures refused { IfErr result (λ fault. fault ≢ OpeningFault.Memory → opened_from self ≡ Err fault) }
        ensures kind { IfErr result (λ fault. fault ≢ OpeningFault.Read) }
    {
        let Ok((opening, coin_lines)) = self.opening(alloc) else {
            return Err(OpeningFault::Memory);
        };
        match State::open(alloc, hasher, opening) {
            Ok(state) => Ok(state),
            Err(fault) => Err(at_line(fault, coin_lines.as_slice())),
        }
    }
}

/// What a line says, if it has a form.
fn said_on(alloc: Global, line: &[u8]) -> Result<Option<OpeningLine>, Memory>
    ensures { IfOk result (λ said. said ≡ said_by line.now) }
{
    match std::str::from_utf8(line) {
        Ok(text) => read_opening_line(alloc, text),
        Err(_) => Ok(None),
    }
}

/// Whether these times are too many beside those held, or one of them is too great.
fn exceeds(held: usize, count: u64, first: u32, step: u64) -> bool
    ensures { result ≡ exceeds held count first step }
{
    if count > MAX_TIMES || held as u64 > MAX_TIMES - count {
        return true;
    }
    !times_fit(count, first, step)
}

/// Whether the tip is above the greatest height with this many times, and this many more, from this height on.
fn is_past(from: u32, held: usize, more: u64) -> bool
    ensures { result ≡ is_past from held more }
{
    u128::from(from) + held as u128 + u128::from(more) > u128::from(MAX_HEIGHT) + 1
}
