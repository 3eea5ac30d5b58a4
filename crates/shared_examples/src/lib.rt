//! What threads pass to each other, a command or a note at a time. They are tests of `task_end` and `agent_posts` through their public
//! calls, and stand apart so that these aren't proved with them once more.
#![tactic(auto)]

#[cfg(test)]
mod tests;
