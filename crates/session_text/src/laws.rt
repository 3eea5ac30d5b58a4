//! Laws of the definitions, each the contract of a function that does nothing.

ghost use Rattle.session_text.specs.Laws as laws;

/// The text of a session is read as that session.
pub fn texts_are_read()
    ensures { laws.TextsAreRead }
{}

/// Bytes that are read as a session are its text.
pub fn read_are_texts()
    ensures { laws.ReadAreTexts }
{}
