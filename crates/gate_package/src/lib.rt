//! Packages: a child with its parents, judged one by one, and then those together that are denied for what they pay or for
//! a coin that one before them makes (Bitcoin Core 28.0 to 30.0, `submitpackage`). A parent and its child that are judged
//! together may take the place of entries. And lists that users test as one package, of which nothing enters.
//!
//! The main clause is that of `submit_package`: the outcome, and the pool and the floor after it. A package is staged, which
//! takes all memory and lets its members stand in the pool, and is then landed, which takes none: between the two it can be
//! taken back. What it replaces leaves the pool meanwhile, with the memory taken for its return.
#![tactic(auto)]

mod coins;
mod entry;
mod families;
mod half;
mod law;
mod listing;
mod members;
mod replacement;
mod role;
mod shape;
mod staging;
mod submitting;
mod sweeping;
mod together;
mod truc;

pub use coins::view_beside;
pub use law::{
    known_again, package_keeps_good, package_keeps_truc, package_of_one, replacement_pays,
    together_all_or_none,
};
pub use listing::{ListedFate, judge_list};
pub use role::Role;
pub use shape::{Unfit, check_list, check_shape, read_list, read_members};
pub use staging::Stage;
pub use submitting::{StagedPackage, stage_package, submit_package};
