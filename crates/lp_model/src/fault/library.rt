ghost use Rattle.std.specs.Prelude.{◌≡◌};
ghost use Rattle.lp_model.specs.FaultWords.{library_fault_word};

use lp_text::{NameId, Place};

/// A fault of the library texts.
#[derive(Clone, Copy)]
pub enum LibraryFault {
    /// F01: The text leaves the form of a library.
    Syntax {
        /// The number of the file.
        file: u32,
        /// The place of the first token that cannot stand there.
        place: Place,
    },
    /// F02: A text above the limit, groups deeper than 64, or a token above 1,048,576 bytes.
    Limit {
        /// The number of the file.
        file: u32,
        /// The place.
        place: Place,
    },
    /// F03: A second cell of a name.
    DuplicateCell {
        /// The name.
        cell: NameId,
    },
}

impl LibraryFault {
    /// The number and the name of the fault.
    pub fn word(&self) -> &'static str
        ensures { result.now ≡ library_fault_word self.now }
    {
        match self {
            LibraryFault::Syntax { .. } => "F01 Syntax",
            LibraryFault::Limit { .. } => "F02 Limit",
            LibraryFault::DuplicateCell { .. } => "F03 DuplicateCell",
        }
    }
}
