//! What several transactions conflict with together, what they replace, and how that is joined to the rest of the pool (Bitcoin
//! Core 28.0 and later, package replacement).
#![tactic(auto)]

mod inputs;
mod rivals;

pub use inputs::bare_inputs;
pub use rivals::{
    children_of, entries_of, have_ancestors, have_too_many, list_replaced, list_replaced_together,
    list_rivals, parents_of, some_is_entangled, take_replaced,
};
