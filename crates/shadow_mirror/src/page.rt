//! The document with its history: what readers look at.

ghost use Rattle.std.specs.Prelude.{◌≡◌, ◌∷◌, [], IfOk};
ghost use Rattle.shadow_mirror.specs.Documents.{doc};

use crate::document::Document;
use crate::history::History;
use crate::known::Known;
use crossbeam_utils::rule::{Outcome, Protocol};
use left_right::Absorb;
use std::alloc::AllocError;
use std::marker::Model;

/// The document of a history. Contracts see it as the history.
#[derive(Drop)]
pub struct Page {
    document: Document,
    history: History,
}

impl Model for Page {
    ghost use Rattle.std.specs.Prelude.{◌≡◌};
    ghost use Rattle.shadow_mirror.specs.Documents.{doc};
    ghost use Rattle.shadow_mirror.specs.Pasts.{Past};

    ghost Value = { Past };

    ghost view = { λ p. p.history };

    ghost invariant = { λ p. p.document ≡ doc p.history.changes };
}

impl Page {
    pub fn new(document: Document, history: History) -> Page
        requires { document ≡ doc history.changes }
        ensures { result ≡ history }
    {
        Page { document, history }
    }

    /// A copy. An error is want of memory.
    pub fn copy(&self) -> Result<Page, AllocError>
        ensures { IfOk result (λ page. page ≡ self.now) }
    {
        Ok(Page {
            document: self.document.copy()?,
            history: self.history.again(),
        })
    }

    pub fn document(&self) -> &Document
        ensures { result.now ≡ doc self.now.changes }
    {
        &self.document
    }

    pub fn history(&self) -> &History
        ensures { result.now ≡ self.now }
    {
        &self.history
    }
}

impl Absorb<Page> for Page {
    ghost use Rattle.shadow_mirror.specs.Pasts.{Past};

    type State = History;

    ghost state = { λ p. p };

    // A page takes the place of the one before.
    ghost applied = { λ _ next. next };

    fn absorb_first(&mut self, operation: &Page, _other: &Page) -> Result<(), AllocError> {
        *self = operation.copy()?;
        Ok(())
    }

    fn absorb_second(&mut self, operation: Page, _other: &Page) -> Result<(), Page> {
        *self = operation;
        Ok(())
    }
}

/// All pages have one history, and who knows a history's name knows that of this one.
pub struct OneHistory;

impl Protocol<Page, Known> for OneHistory {
    ghost use Rattle.shadow_mirror.specs.Known.{AllFit};
    ghost use Rattle.shadow_mirror.specs.declared.known.Known.TheVariants as known;

    ghost holds = { AllFit };

    ghost first = { known.Nothing };
}

/// Whoever looks at a page knows its history's name from then on.
pub struct Sees;

impl Outcome<Page, Known> for Sees {
    ghost use Rattle.shadow_mirror.specs.Known.{Sights};

    ghost then = { Sights };
}
