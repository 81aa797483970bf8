//! Laws of packages.
ghost use Rattle.gate_package.specs.Laws.{KnownAgain, PackageKeepsGood, PackageKeepsTruc, PackageOfOne, ReplacementPays, TogetherAllOrNone};

/// A package of one that has the first try of A36, and of which A50 asks nothing, has the decision of its submission; what
/// is granted leaves the entries that the submission does, and a denied one lets expiry and trim run, too.
pub fn package_of_one()
    ensures { PackageOfOne }
{}

/// Those that are judged together enter all or none.
pub fn together_all_or_none()
    ensures { TogetherAllOrNone }
{}

/// After a package that is a success the same package is one, with each member known, and changes nothing, if nothing has
/// stayed too long by then.
pub fn known_again()
    ensures { KnownAgain }
{}

/// A package of what no connected block has keeps a good pool good.
pub fn package_keeps_good()
    ensures { PackageKeepsGood }
{}

/// Where version 3 is standard, a package of what no connected block has keeps its families small in a good pool.
pub fn package_keeps_truc()
    ensures { PackageKeepsTruc }
{}

/// Those that enter together in the place of entries raise the pool's fees by what their own relay costs.
pub fn replacement_pays()
    ensures { ReplacementPays }
{}
