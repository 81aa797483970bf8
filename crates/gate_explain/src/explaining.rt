//! Who looks on at `gate run --explain`, and speaks on standard error.
use crate::counted_noun::CountedNoun;
use crate::denied::{members_in, outcomes_in};
use crate::event_totals::EventTotals;
use crate::moves::{reason_to_enter, reason_to_leave, second_of};
use crate::object::{listed_object, reply_object};
use crate::progress::Progress;
use crate::sight::Sight;
use crate::telling::Telling;
use crate::told::{Told, reply_told};
use gate_bytes::Memory;
use gate_causes::{Colour, ReportForm};
use gate_core::State;
use gate_message::{Event, Reply};
use gate_rpc::Outcome;
use gate_run::Onlooker;
use gate_submission::Fate;
use gate_tx::Txid;
use std::alloc::Global;
use std::cell::Cell;
use std::hash::BuildHasher;
use std::time::Clock;

/// An onlooker that says on standard error how far the run is, explains denials and tells what moved in the pool there, each
/// with the number of its line, and says at the end what came of the events; all that in words, or as JSON objects, which also
/// say why an entry moved. Without memory for it nothing is said, and what standard error doesn't take is lost.
#[derive(Drop)]
pub struct Explaining<'a, T> {
    rt: &'a T,
    alloc: Global,
    telling: Telling<'a>,
    progress: Progress,
    totals: EventTotals,
    /// The first second at which any entry came.
    earliest: Cell<Option<u64>>,
}

impl<'a, T> Explaining<'a, T> {
    /// An onlooker of a run that hasn't begun.
    pub fn new(rt: &'a T, alloc: Global, telling: Telling<'a>) -> Explaining<'a, T> {
        Explaining {
            rt,
            alloc,
            telling,
            progress: Progress::new(),
            totals: EventTotals::new(alloc),
            earliest: Cell::new(None),
        }
    }

    /// The summary of a run that ended in this state: its totals, and the pool.
    fn summary<S: BuildHasher + Copy + Drop>(&self, state: &State<S>) -> Result<String, Memory> {
        let counts = self.totals.text()?;
        let lines = CountedNoun::new(self.telling.position.refused(), "line", "lines");
        let entries = CountedNoun::new(state.pool().count() as u64, "entry", "entries");
        let size = state.pool().size();
        Ok(format!(in self.alloc;
            "gate: {counts}, {lines} refused; pool: {entries}, {size} of {} virtual bytes, floor {}",
            state.budget(),
            state.floor().rate()
        )?)
    }

    /// The summary as an object.
    fn summary_object<S: BuildHasher + Copy + Drop>(
        &self,
        state: &State<S>,
    ) -> Result<String, Memory> {
        let counts = self.totals.fields()?;
        Ok(format!(in self.alloc;
            "{{{counts},\"refused\":{},\"entries\":{},\"size\":{},\"budget\":{},\"floor\":{}}}",
            self.telling.position.refused(),
            state.pool().count(),
            state.pool().size(),
            state.budget(),
            state.floor().rate()
        )?)
    }

    /// Notes that an entry came at a second.
    fn note_arrival(&self, second: u64) {
        let earliest = match self.earliest.get() {
            Some(earliest) => earliest.min(second),
            None => second,
        };
        self.earliest.set(Some(earliest));
    }
}

impl<T: Eprint> Explaining<'_, T> {
    /// Says a line for each of these txids, behind a sign in this colour.
    fn tell_each(&self, sign: &str, colour: Colour, txids: &[Txid]) {
        let line = self.telling.position.line();
        for txid in txids {
            let _written = eprintln!(self.rt;
                "gate: line {line}: {} {txid}",
                self.telling.colours.paint(colour, sign)
            );
        }
    }

    /// Says an object for an entry that moved, if it is known why.
    fn tell_move(&self, moved: &str, txid: &Txid, reason: Option<&str>) {
        let line = self.telling.position.line();
        let _written = match reason {
            Some(reason) => eprintln!(self.rt;
                "{{\"line\":{line},\"{moved}\":\"{txid}\",\"reason\":\"{reason}\"}}"
            ),
            None => eprintln!(self.rt; "{{\"line\":{line},\"{moved}\":\"{txid}\"}}"),
        };
    }

    /// Says which entries the last event took out, and then which it brought in, in order of admission.
    fn tell_moves<S: BuildHasher + Copy + Drop>(
        &self,
        state: &State<S>,
        sight: &Sight,
        event: &Event,
    ) {
        let pool = state.pool();
        if let Ok(departed) = pool.departed(self.alloc) {
            if let Ok(arrived) = pool.arrived(self.alloc) {
                match self.telling.form {
                    ReportForm::Words => {
                        self.tell_each("-", Colour::Red, departed.as_slice());
                        self.tell_each("+", Colour::Green, arrived.as_slice());
                    }
                    ReportForm::Json => {
                        let earliest = self.earliest.get();
                        for txid in departed.as_slice() {
                            let reason = reason_to_leave(state, sight, event, txid, earliest);
                            self.tell_move("left", txid, reason);
                        }
                        for txid in arrived.as_slice() {
                            self.tell_move("entered", txid, Some(reason_to_enter(event)));
                            if let Some(second) = second_of(event) {
                                self.note_arrival(second);
                            }
                        }
                    }
                }
            }
        }
    }

    /// Says why a transaction of a list would be denied, or why a member of a package is: the one at this place of so many.
    fn tell_denied<S: BuildHasher + Copy + Drop>(
        &self,
        state: &State<S>,
        place: usize,
        count: usize,
        txid: &Txid,
        told: &Told,
    ) -> Result<(), Memory> {
        let line = self.telling.position.line();
        let number = (place as u64).saturating_add(1);
        match self.telling.form {
            ReportForm::Words => {
                let text = told.text(self.alloc, state, self.telling.colours)?;
                let _written = eprintln!(self.rt;
                    "gate: line {line}: transaction {number} of {count}: {text}"
                );
            }
            ReportForm::Json => {
                let object = listed_object(self.alloc, line, number, txid, state, told)?;
                let _written = eprintln!(self.rt; "{object}");
            }
        }
        Ok(())
    }

    /// Says of each transaction of a list why it would be denied, if it would.
    fn tell_listed<S: BuildHasher + Copy + Drop>(
        &self,
        state: &State<S>,
        sight: &Sight,
        reply: &Reply,
    ) {
        let outcomes = outcomes_in(reply);
        for (place, outcome) in outcomes.iter().enumerate() {
            if let Outcome::Rejected { txid, denial, .. } = outcome {
                let told = sight.listed(place, *denial);
                let _told = self.tell_denied(state, place, outcomes.len(), txid, &told);
            }
        }
    }

    /// Says of each member of a package why it is denied, if it is.
    fn tell_members<S: BuildHasher + Copy + Drop>(
        &self,
        state: &State<S>,
        sight: &Sight,
        reply: &Reply,
    ) {
        let members = members_in(reply);
        let judged = sight.judged(members);
        for (place, member) in members.iter().enumerate() {
            if let Fate::Denied(denial) = &member.fate {
                if let Ok(told) = judged.told(self.alloc, place, *denial) {
                    let txid = &member.txid;
                    let _told = self.tell_denied(state, place, members.len(), txid, &told);
                }
            }
        }
    }

    /// Says what is said of a reply.
    fn tell_reply<S: BuildHasher + Copy + Drop>(
        &self,
        state: &State<S>,
        sight: &Sight,
        event: &Event,
        reply: &Reply,
    ) {
        let line = self.telling.position.line();
        match self.telling.form {
            ReportForm::Words => {
                let colours = self.telling.colours;
                if let Ok(Some(text)) = reply_told(
                    self.alloc, state, sight, event, reply, colours,
                ) {
                    let _written = eprintln!(self.rt; "gate: line {line}: {text}");
                }
            }
            ReportForm::Json => {
                if let Ok(Some(object)) = reply_object(
                    self.alloc, line, state, sight, event, reply,
                ) {
                    let _written = eprintln!(self.rt; "{object}");
                }
            }
        }
    }
}

impl<S: BuildHasher + Copy + Drop, T: Clock + Eprint> Onlooker<S> for Explaining<'_, T> {
    type Sight = Sight;

    fn begin(&self) {
        self.progress.begin(self.rt, &self.telling);
    }

    fn before(&self, state: &State<S>, event: &Event) -> Sight {
        self.progress
            .tell(self.rt, &self.telling, self.totals.events());
        let with_relatives = self.telling.form == ReportForm::Json;
        Sight::of(self.alloc, state, event, with_relatives)
    }

    fn after(&self, sight: Sight, state: &State<S>, event: &Event, reply: Option<&Reply>) {
        let Some(reply) = reply else {
            self.totals.count_fault();
            return;
        };
        self.totals.count(event, &sight.explained, reply);
        self.tell_reply(state, &sight, event, reply);
        self.tell_listed(state, &sight, reply);
        self.tell_members(state, &sight, reply);
        self.tell_moves(state, &sight, event);
    }

    fn end(&self, state: &State<S>) {
        let summary = match self.telling.form {
            ReportForm::Words => self.summary(state),
            ReportForm::Json => self.summary_object(state),
        };
        if let Ok(text) = summary {
            let _written = eprintln!(self.rt; "{text}");
        }
    }
}
