//! Laws of the figures, and of least fees.
ghost use Rattle.gate_figures.specs.Laws.{FiguresDecide, FirstTriesDecide, GrantsReachTheLeastFee, MemberFiguresDecide, PricesDecide, SumsDecide};

/// If a transaction is denied, the figures of the rule that denies it are past what the policy in force allows, or
/// below what is needed. An outpoint that they name has no coin, and an input that they name has no good verdict. They
/// name an entry that doesn't signal only if there is no full replacement.
pub fn figures_decide()
    ensures { FiguresDecide }
{}

/// The same of a member of a package: if it is denied by itself, the figures of the rule are past what is allowed or below what
/// is needed, and so are those of the first try of A36. If A34 or A35 denies what a transaction pays behind others, or what
/// several pay together, that is below what is needed.
pub fn member_figures_decide()
    ensures alone { MemberFiguresDecide }
    ensures crowded { FirstTriesDecide }
    ensures paid { PricesDecide }
    ensures together { SumsDecide }
{}

/// A submission that is granted has a least fee, and pays at least that.
pub fn grants_reach_the_least_fee()
    ensures { GrantsReachTheLeastFee }
{}
