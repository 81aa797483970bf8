/// Whether a transaction is judged for the first time, or tried again after its block was disconnected.
#[derive(Clone, Copy, PartialEq, Eq)]
pub enum Attempt {
    /// Every rule of the written order is asked.
    First,
    /// The transaction was in a block and paid its way there: A34, A35 and A47 are not asked again, and it evicts no
    /// sibling. Its children may be in
    /// the pool already, so that it has limits of its own in place of A36's: it may not descend from itself, and each
    /// of its ancestors and descendants, itself among them, may have as many ancestors and descendants as the two tries
    /// of A36 let an entry have, of as many virtual bytes as the policy says and 10,000 more of descendants, the entry
    /// itself among each.
    Again,
}
