//! The event that a line spells, and the one text of each event.
//!
//! The main clauses are those of [`event_on`], the event of the line's definition or `None` if the line has no form,
//! and of [`event_text`]; [`texts_spell`] says that the text spells the event.
#![tactic(auto)]

mod chain_line;
mod chain_printing;
mod event_line;
mod event_printing;
mod hexadecimal;
mod laws;

pub use event_line::{event_on, prepared, read_event};
pub use event_printing::event_text;
pub use laws::{texts_are_lines, texts_spell};
