//! Laws of the definitions, each the contract of a function that does nothing.

ghost use Rattle.journal_text.specs.Laws.{TextsNameJournals, ExampleIsNamed, EndingsAreTold};
ghost use Rattle.journal_text.specs.Printed.{ExampleIsPrinted};

/// The journal of the first example of a replay is printed so.
#[tactic(auto, using(crate::proofs::Printed::example_is_printed))]
pub fn first_example()
    ensures { ExampleIsPrinted }
{}

/// Two journals with the same text are the same journal.
#[tactic(auto, using(crate::proofs::Names::texts_name_journals))]
pub fn texts_name_journals()
    ensures { TextsNameJournals }
{}

/// How a legal journal has ended is told by the journal alone.
#[tactic(auto, using(crate::proofs::Ends::endings_are_told))]
pub fn endings_are_told()
    ensures { EndingsAreTold }
{}

/// The text of the first example names its journal.
#[tactic(auto, using(crate::proofs::Worked::example_is_named))]
pub fn example_is_named()
    ensures { ExampleIsNamed }
{}
