//! Why a file wasn't opened, or a text wasn't saved.

/// Why no file was made or opened. The disk comes back.
#[derive(Debug, Drop)]
pub enum OpenFault<D> {
    /// The disk failed. Its count of faults rose in the call.
    Disk(D),
    /// The length is above that of a slot minus 4: that of the text to be held, or at `open` the one
    /// that stands in the slot that counts.
    TooLong(D),
    /// Memory ran out. The disk is as it was.
    NoMemory(D),
}

/// Why a text wasn't saved.
#[derive(Debug, Drop)]
pub enum SaveFault<F, D> {
    /// The text is longer than a slot minus 4. The file comes back as it was.
    TooLong(F),
    /// The disk failed, and has to be opened again. Its count of faults rose in the call.
    Disk(D),
}
