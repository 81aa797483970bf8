//! What is expected where a line does not fit its form.
use crate::cause::{Cause, Misfit};
use crate::fit::Fit;
use crate::forms::{DIVIDERS, Form, Forms, OPTIONS, Place};
use crate::text::{Grouped, Shown, nearest};
use gate_bytes::Memory;
use std::alloc::Global;

/// What the forms that a line fits this far have at the next place: words, and a value.
#[derive(Drop)]
struct Expected {
    words: Vec<&'static str>,
    value: Option<String>,
}

impl Expected {
    fn behind(alloc: Global, line: &str, forms: Forms, places: usize) -> Result<Expected, Memory> {
        let mut expected = Expected {
            words: Vec::new(alloc),
            value: None,
        };
        for words in forms.words {
            expected.add(alloc, line, Form::Words(words), places)?;
        }
        for setting in forms.settings {
            expected.add(alloc, line, Form::Setting(*setting), places)?;
        }
        Ok(expected)
    }

    /// Adds what this form has there, if the line fits it this far.
    fn add(&mut self, alloc: Global, line: &str, form: Form, places: usize) -> Result<(), Memory> {
        if Fit::of(line, form).places < places {
            return Ok(());
        }
        match form.place(places) {
            Some(Place::OneOf(names)) => for name in names.split('|') {
                if self.words.last() != Some(&name) {
                    self.words.push(name)?;
                }
            },
            Some(Place::Number { what, least, most }) => {
                self.value = Some(format!(in alloc;
                    "{what}, {} to {}",
                    Grouped(least),
                    Grouped(most)
                )?);
            }
            Some(Place::Text { what, .. }) => self.value = Some(String::from_str(alloc, what)?),
            None => {}
        }
        Ok(())
    }

    /// The words and the value with commas between them, and an `or` before the last.
    fn text(&self, alloc: Global) -> Result<String, Memory> {
        let mut text = String::new(alloc);
        for word in &self.words {
            if !text.is_empty() {
                let is_last = self.value.is_none() && self.words.last() == Some(word);
                text.push_str(if is_last { " or " } else { ", " })?;
            }
            text.push_str(word)?;
        }
        if let Some(value) = &self.value {
            if !text.is_empty() {
                text.push_str(" or ")?;
            }
            text.push_str(value.as_str())?;
        }
        Ok(text)
    }

    /// The word that an unknown one may stand for, or an option of a node, as `-minrelaytxfee=100`, with its value.
    fn meant(&self, alloc: Global, word: &str, is_first: bool) -> Result<Option<String>, Memory> {
        let words = self.words.as_slice();
        let near = match nearest(alloc, word, words)? {
            None if is_first => nearest(alloc, word, &DIVIDERS)?,
            near => near,
        };
        if let Some(near) = near {
            return Ok(Some(String::from_str(alloc, near)?));
        }
        if !is_first {
            return Ok(None);
        }
        let option = word.trim_start_matches('-');
        let (name, value) = option.split_once('=').unwrap_or((option, ""));
        let known = OPTIONS.iter().find(|known| known.0 == name);
        Ok(match (known, nearest(alloc, name, words)?) {
            (Some(known), _) => Some(String::from_str(alloc, known.1)?),
            (None, Some(near)) if value.is_empty() => Some(String::from_str(alloc, near)?),
            (None, Some(near)) => Some(format!(in alloc; "{near} {value}")?),
            (None, None) => None,
        })
    }
}

/// What is wrong with a line, by the form that it fits furthest of these.
pub(crate) fn fit_cause(alloc: Global, line: &str, forms: Forms) -> Result<String, Memory> {
    let fit = Fit::furthest(line, forms);
    let Err(cause) = fit.fault else {
        return Ok(String::from_str(alloc, "matches one of the forms")?);
    };
    let expected = Expected::behind(alloc, line, forms, fit.places)?;
    if let Cause::Word(word, Misfit::Unknown) = cause {
        if let Some(meant) = expected.meant(alloc, word, fit.places == 0)? {
            return Ok(format!(in alloc; "{} is unknown; is it {meant}?", Shown(word))?);
        }
    }
    let expected = expected.text(alloc)?;
    cause.text(alloc, expected.as_str())
}
