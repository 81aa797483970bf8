//! A graph of transactions by their parents, and families in it: which ids a chain of parent steps leads to, and the
//! totals of families.
//!
//! A step leads from a parent to a child. `Nodes` is what a pool stands on: nodes in the order of adding, each with what
//! it carries and with the totals of its ancestors and descendants. Steps may lead anywhere: a node may name ids that no
//! node has, and a chain may lead back to its start. No change takes memory: a node's is taken beforehand, in
//! `Nodes::reserve`. Putting in a node that nothing names takes a walk over its ancestors; taking out a family takes a
//! walk over it, and one over the ancestors of each of its nodes. The main clauses are those of `Nodes::put`,
//! `Nodes::take_family`, `Nodes::take_one`, `Nodes::totals` and `Nodes::least`, which lends the node of the least
//! feerate at once.
//!
//! Families are tests over the list of nodes, each with the ids of its parents. By the clause of `reaching_is_leading`,
//! the test `reaches` that defines them is the relation "a chain of steps leads from one id down to another". The other
//! laws are about nodes of which no chain leads back, and say what changes do to their families.
#![tactic(auto)]

mod copy;
mod find;
mod held;
mod id;
mod law;
mod links;
mod merge;
mod nodes;
mod places;
mod put;
mod refresh;
mod slots;
mod table;
mod take;
mod walk;
mod weigh;

pub use held::{Gone, Held, Sums, Totals};
pub use id::{Id, NodeId};
pub use law::{
    families_have_each_once, nodes_join_families, reaching_is_leading, roots_come_and_go,
    roots_leave_families, strangers_have_no_family,
};
pub use nodes::Nodes;
