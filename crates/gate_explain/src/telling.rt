use gate_causes::{Colours, InputPosition, ReportForm};

/// What the explanation of a run goes by.
#[derive(Clone, Copy)]
pub struct Telling<'a> {
    /// Where the reader of the run stands.
    pub position: &'a InputPosition,
    pub form: ReportForm,
    /// Whether words have colours. Objects never have any.
    pub colours: Colours,
    /// Whether progress is reported while the run goes on.
    pub progress: bool,
    /// How many bytes the input has, if that is known.
    pub length: Option<u64>,
}
