//! The least of some tasks.

ghost use Rattle.std.specs.Prelude.{◌≡◌};
ghost use Rattle.subscriptions.specs.Nearest.{is_nearer, lesser};

/// Whether a task isn't below `from`, and is below the least one that was found so far.
pub fn is_nearer(task: u32, from: u32, least: Option<u32>) -> bool
    ensures { result ≡ is_nearer task from least }
{
    from <= task
        && match least {
            Some(other) => task < other,
            None => true,
        }
}

/// The lesser of two tasks, of which one or both may be missing.
pub fn lesser(one: Option<u32>, other: Option<u32>) -> Option<u32>
    ensures { result ≡ lesser one other }
{
    match (one, other) {
        (Some(one), Some(other)) => Some(one.min(other)),
        (Some(one), None) => Some(one),
        (None, other) => other,
    }
}
