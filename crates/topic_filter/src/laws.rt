//! Laws of the definitions, each the contract of a function that does nothing.

ghost use Rattle.topic_filter.specs.Laws as laws;

/// The matcher over the lists of levels answers exactly the relation.
#[tactic(auto, using(crate::proofs::Exact::exact))]
pub fn matcher_is_exact()
    ensures { laws.MatcherIsExact }
{}

/// Each name is a filter.
#[tactic(auto, using(crate::proofs::Names::names_are_filters))]
pub fn names_are_filters()
    ensures { laws.NamesAreFilters }
{}

/// A filter without wildcards fits itself alone.
#[tactic(auto, using(crate::proofs::Names::plain_fits_itself))]
pub fn plain_fits_itself()
    ensures { laws.PlainFitsItself }
{}

/// `#` fits exactly the names that don't begin with `$`.
pub fn hash_fits_all()
    ensures { laws.HashFitsAll }
{}

/// `a/#` fits what `a` fits and every level below it.
#[tactic(auto, using(crate::proofs::Below::hash_fits_below))]
pub fn hash_fits_below()
    ensures { laws.HashFitsBelow }
{}
