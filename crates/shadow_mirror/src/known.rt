//! What a reader and the writer know of the page.

/// The name of a history, where it is known. No value of it is made.
pub enum Known {
    Nothing,
    Of(u64, u64, u64),
}
