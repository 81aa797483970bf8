/// How a transaction of a package is judged.
#[derive(Clone, Copy, PartialEq, Eq)]
pub enum Role {
    /// By itself: it has the first try of A36 alone, without room for what it replaces.
    Member,
    /// With others that were denied by themselves: A34 is not asked, and the coins of its inputs are also those that the
    /// ones before it make.
    Together,
    /// As one of several that are tested as one package: the coins of its inputs are also those that the ones before it make,
    /// and it replaces nothing.
    Listed,
}
