//! What is wrong with a line of the input, in plain words.
//!
//! The main clause is that of [`event_cause`]: a cause is given for a line exactly if it does not parse as an event. The
//! forms of lines are a table, which one interpreter compares with a line. A [`LineReporter`] reports on lines as they
//! pass, and reads as the reader behind it does; a [`FirstWriteRecorder`] keeps the first text that it took.
#![tactic(auto)]

mod aside;
mod call;
mod cause;
mod causes;
mod colour;
mod expected;
mod first_write_recorder;
mod fit;
mod forms;
mod input_position;
mod journal;
mod line_number;
mod line_reporter;
mod line_watch;
mod refusal;
mod replies_first;
mod report_form;
mod rule_name;
mod text;
mod transaction;

pub use aside::Aside;
pub use call::call_cause;
pub use causes::{event_cause, opening_cause};
pub use colour::{Colour, Colours, Painted};
pub use first_write_recorder::FirstWriteRecorder;
pub use input_position::{InputPosition, Limit};
pub use line_reporter::LineReporter;
pub use line_watch::InputKind;
pub use refusal::refusal_cause;
pub use replies_first::RepliesFirst;
pub use report_form::{Quoted, ReportForm};
pub use rule_name::rule_near;
pub use transaction::transaction_cause;
