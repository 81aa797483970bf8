//! What is told of a rule that denies.
use crate::denied::{call_fault, denial_in, rule_in};
use crate::figure_fields::FigureFields;
use crate::remedy::Remedy;
use crate::sight::Sight;
use gate_bytes::Memory;
use gate_causes::{Colour, Colours, Quoted};
use gate_core::State;
use gate_figures::{Explained, Figures};
use gate_message::{Event, Reply};
use gate_rules::Rule;
use gate_standard::Denial;
use std::alloc::Global;
use std::hash::BuildHasher;

/// A rule that denies, with what is known of why.
#[derive(Clone, Copy)]
pub(crate) struct Told {
    pub(crate) rule: &'static Rule,
    /// The figures by which it denies.
    pub(crate) figures: Option<Figures>,
    /// Whether the limits of descendants deny (A36), which have no figures.
    pub(crate) is_of_descendants: bool,
    /// What helps.
    pub(crate) remedy: Remedy,
}

/// The figures of the rule that a reply names, if the explanation has some. For a transaction that was granted and then
/// left the pool again there are none.
fn figures_for(explained: &Option<Explained>, reply: &Reply) -> Option<Figures> {
    match explained {
        Some(Err(explanation)) if denial_in(reply) == Some(explanation.denial) =>
            explanation.figures,
        _ => None,
    }
}

/// What helps the submission that a reply denies, if the explanation is of the rule that the reply names.
fn remedy_for(sight: &Sight, reply: &Reply) -> Remedy {
    match &sight.explained {
        Some(Err(explanation)) if denial_in(reply) == Some(explanation.denial) => sight.remedy,
        _ => Remedy::Unknown,
    }
}

/// What is said of the limits of descendants (A36), by the numbers of the opening.
fn descendants_text<S: BuildHasher + Copy + Drop>(
    alloc: Global,
    state: &State<S>,
) -> Result<String, Memory> {
    let policy = state.policy();
    Ok(format!(in alloc;
        "with it an entry would have more than {} descendants, itself among them, or more than {} virtual bytes of them",
        policy.descendants(),
        policy.descendants_size()
    )?)
}

/// Appends the token of a rule, and its sentence if it is asked for.
fn push_rule(text: &mut String, rule: &Rule, with_sentence: bool) -> Result<(), Memory> {
    let token = Quoted(rule.token);
    write!(text, ",\"token\":{token}")?;
    if with_sentence {
        let says = Quoted(rule.says);
        write!(text, ",\"says\":{says}")?;
    }
    Ok(())
}

/// Appends the limits of descendants by the numbers of the opening.
fn push_descendants<S: BuildHasher + Copy + Drop>(
    text: &mut String,
    state: &State<S>,
) -> Result<(), Memory> {
    let policy = state.policy();
    write!(
        text,
        ",\"most_descendants\":{},\"most_descendants_size\":{}",
        policy.descendants(),
        policy.descendants_size()
    )?;
    Ok(())
}

impl Told {
    /// What is known of the rule that a reply names.
    pub(crate) fn of_reply(sight: &Sight, reply: &Reply) -> Option<Told> {
        let rule = rule_in(reply)?;
        let figures = figures_for(&sight.explained, reply);
        Some(Told {
            rule,
            figures,
            is_of_descendants: figures.is_none() && denial_in(reply) == Some(Denial::TooLongChain),
            remedy: remedy_for(sight, reply),
        })
    }

    /// The name of the rule, which denies and so is red, and its figures, or its sentence if it has no figures, and what helps.
    pub(crate) fn text<S: BuildHasher + Copy + Drop>(
        &self,
        alloc: Global,
        state: &State<S>,
        colours: Colours,
    ) -> Result<String, Memory> {
        let name = colours.paint(Colour::Red, self.rule.name);
        let (says, remedy) = (self.rule.says, self.remedy);
        match self.figures {
            Some(figures) => Ok(format!(in alloc; "{name} {figures}{remedy}")?),
            None if self.is_of_descendants => {
                let text = descendants_text(alloc, state)?;
                Ok(format!(in alloc; "{name} {text}{remedy}")?)
            }
            None => Ok(format!(in alloc; "{name} {says}{remedy}")?),
        }
    }

    /// Appends the same as fields of a JSON object, behind a comma: the name of the rule, its token, its figures or its
    /// sentence, and what helps.
    pub(crate) fn push_fields<S: BuildHasher + Copy + Drop>(
        &self,
        text: &mut String,
        state: &State<S>,
    ) -> Result<(), Memory> {
        let name = self.rule.name;
        write!(text, ",\"rule\":\"{name}\"")?;
        push_rule(
            text,
            self.rule,
            self.figures.is_none() && !self.is_of_descendants,
        )?;
        match self.figures {
            Some(figures) => {
                let fields = FigureFields(figures);
                write!(text, "{fields}")?;
            }
            None if self.is_of_descendants => push_descendants(text, state)?,
            None => {}
        }
        let remedy = self.remedy.field();
        write!(text, "{remedy}")?;
        Ok(())
    }
}

/// What is said of a reply: if it says that a rule fails, the name of the rule and its figures, or its sentence if it
/// has no figures; if it answers a call by another error, what is wrong with the call. Other replies have `None`.
pub(crate) fn reply_told<S: BuildHasher + Copy + Drop>(
    alloc: Global,
    state: &State<S>,
    sight: &Sight,
    event: &Event,
    reply: &Reply,
    colours: Colours,
) -> Result<Option<String>, Memory> {
    match Told::of_reply(sight, reply) {
        Some(told) => Ok(Some(told.text(alloc, state, colours)?)),
        None => call_fault(alloc, event, reply),
    }
}
