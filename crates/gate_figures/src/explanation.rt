use crate::figures::Figures;
use gate_admit::Grant;
use gate_standard::Denial;

/// Why a submission is denied: the rule that decides, and its figures, if the rule has some.
#[derive(Clone, Copy, PartialEq, Eq)]
pub struct Explanation {
    pub denial: Denial,
    pub figures: Option<Figures>,
}

/// What is decided of a submission: its grant, or why it is denied.
pub type Explained = Result<Grant, Explanation>;
