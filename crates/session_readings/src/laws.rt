//! Worked journals, the contract of a function that does nothing.

ghost use Rattle.session_readings.specs.Worked.{JournalsAreSaved};

/// Journals and the bytes that are saved of them.
pub fn journals_are_saved()
    ensures { JournalsAreSaved }
{}
