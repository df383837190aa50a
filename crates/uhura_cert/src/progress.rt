//! How far the lines of a document are taken.
ghost use Rattle.std.specs.Prelude.{List, ℕ, [], ◌∷◌, ◌++◌, IfOk};
ghost use Rattle.uhura_cert.specs.Text.{Reads};
ghost use Rattle.uhura_cert.specs.Reading.{HasTaken, Advances};

use crate::one_by_one::lines_are_taken_one_by_one;
use crate::reader::Reader;
use crate::{Document, DocumentRefusal, Listed};
use std::alloc::{AllocError, Global};

/// A reader that counts its lines. The count stands still at its greatest number.
#[derive(Drop)]
pub(crate) struct Progress {
    pub(crate) reader: Reader,
    pub(crate) count: u32,
}

impl Progress {
    /// No line is taken yet.
    pub(crate) fn new(alloc: Global) -> Result<Progress, AllocError>
        ensures { IfOk result (HasTaken []) }
    {
        Ok(Progress {
            reader: Reader::new(alloc)?,
            count: 0,
        })
    }

    /// Takes the next line, or refuses it as the first malformed one.
    pub(crate) fn line(&mut self, alloc: Global, line: &[u8]) -> Result<(), DocumentRefusal>
        ensures { (taken : List (List ℕ)) → HasTaken taken self.old →
            Advances (taken ++ line.now ∷ []) result self.new }
    {
        lines_are_taken_one_by_one();
        let next = self.count.saturating_add(1);
        match self.reader.take(alloc, line) {
            Ok(true) => {
                self.count = next;
                Ok(())
            }
            Ok(false) => Err(DocumentRefusal::Malformed { line: next }),
            Err(error) => Err(DocumentRefusal::Memory(error)),
        }
    }

    /// The document that ends with the last line.
    pub(crate) fn document(self) -> Result<Document, DocumentRefusal>
        requires { (taken : List (List ℕ)) × HasTaken taken self }
        ensures { (taken : List (List ℕ)) → HasTaken taken self → Reads taken result }
    {
        lines_are_taken_one_by_one();
        if !self.reader.is_done() {
            return Err(DocumentRefusal::Malformed {
                line: self.count.saturating_add(1),
            });
        }
        let reader = self.reader;
        Ok(Document {
            version: reader.version,
            state: reader.state,
            answer: reader.answer,
            shared: Listed::from_vec(reader.shared),
            leaves: Listed::from_vec(reader.leaves),
        })
    }
}
