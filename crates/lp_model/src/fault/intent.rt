ghost use Rattle.std.specs.Prelude.{◌≡◌};
ghost use Rattle.lp_model.specs.FaultWords.{intent_fault_word, intent_limit_number, load_limit_number};

use lp_text::{NameId, Place};

/// What a power intent has too much of.
#[derive(Clone, Copy)]
pub enum IntentLimit {
    /// Bytes of the text: 67,108,864.
    Bytes,
    /// Strategies: 4,096.
    Strategies,
    /// Rows of the state table: 4,096.
    Rows,
    /// Supply origins: 1,024.
    Origins,
}

impl IntentLimit {
    /// The number that stands for it in a fault's line.
    pub fn number(self) -> u32
        ensures { result ≡ intent_limit_number self }
    {
        match self {
            IntentLimit::Bytes => 1,
            IntentLimit::Strategies => 2,
            IntentLimit::Rows => 3,
            IntentLimit::Origins => 4,
        }
    }
}

/// What is loaded too much of.
#[derive(Clone, Copy)]
pub enum LoadLimit {
    /// Files: 256.
    Loads,
    /// Bytes of all texts of the intent together: 67,108,864.
    Bytes,
}

impl LoadLimit {
    /// The number that stands for it in a fault's line.
    pub fn number(self) -> u32
        ensures { result ≡ load_limit_number self }
    {
        match self {
            LoadLimit::Loads => 1,
            LoadLimit::Bytes => 2,
        }
    }
}

/// A fault of the text of the power intent and of its names.
#[derive(Clone, Copy)]
pub enum IntentFault {
    /// F30: The text leaves the form of its commands, or a required option is missing.
    Syntax {
        /// The place.
        place: Place,
    },
    /// F31: A command, an option or a value that is not read.
    Unsupported {
        /// Its place.
        place: Place,
        /// The word.
        word: NameId,
    },
    /// F32: A name that names nothing of its kind.
    UnknownName {
        /// The place of its word.
        place: Place,
        /// The word.
        name: NameId,
    },
    /// F33: A name or an assignment that is made twice.
    Duplicate {
        /// The place of its word.
        place: Place,
        /// The word.
        name: NameId,
    },
    /// F34: A clamp value other than 0 and 1.
    ClampRefused {
        /// Its place.
        place: Place,
    },
    /// F43: More of something than the limit.
    Limit {
        /// Of what.
        limit: IntentLimit,
    },
    /// F44: A file is loaded while its own commands are being read.
    LoadCycle {
        /// Its name as it is written.
        file: NameId,
    },
    /// F45: More is loaded than the limit.
    LoadLimit {
        /// Of what.
        limit: LoadLimit,
    },
}

impl IntentFault {
    /// The number and the name of the fault.
    pub fn word(&self) -> &'static str
        ensures { result.now ≡ intent_fault_word self.now }
    {
        match self {
            IntentFault::Syntax { .. } => "F30 Syntax",
            IntentFault::Unsupported { .. } => "F31 Unsupported",
            IntentFault::UnknownName { .. } => "F32 UnknownName",
            IntentFault::Duplicate { .. } => "F33 Duplicate",
            IntentFault::ClampRefused { .. } => "F34 ClampRefused",
            IntentFault::Limit { .. } => "F43 Limit",
            IntentFault::LoadCycle { .. } => "F44 LoadCycle",
            IntentFault::LoadLimit { .. } => "F45 LoadLimit",
        }
    }
}
