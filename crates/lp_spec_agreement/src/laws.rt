//! The laws of agreement: each is the clause of a function that does nothing.
ghost use Rattle.lp_spec_agreement.specs.Laws.{AgreesByCells, Agreement, AgreementByIndices};
ghost use Rattle.lp_spec_agreement.specs.Met.{AgreementOfAClamp, AgreementOfARegister, AgreementOfAShifter};

/// Where the project has no fault, the netlist realises it, and each cell does at its pins what the intent says: for all
/// events within the rows the source under its intent and the netlist by its pins have one run each, the outputs of the
/// source show the same after each event, and its registers stay equal.
#[tactic(auto, using(crate::proofs::ByCells::agrees_by_cells))]
pub fn agrees_by_cells()
    ensures { AgreesByCells }
{}

/// The theorem of insertion. Where the project has no fault, the netlist realises it, and each of its power and ground
/// pins has one supply: for all events within the rows of the state table and all states of the registers, which begin
/// equal, the source under its intent and the netlist by its pins have exactly one run each; after each event the
/// outputs of the source show the same in both, bit by bit from the left, and its registers are the same.
#[tactic(auto, using(crate::proofs::Whole::agreement))]
pub fn agreement()
    ensures { Agreement }
{}

/// Where the netlist keeps the indices of the top's outputs, these are the bits of one name and one index.
#[tactic(auto, using(crate::proofs::Whole::agreement_by_indices))]
pub fn agreement_by_indices()
    ensures { AgreementByIndices }
{}

/// The premises of the theorem can be met at once: there is a project without faults, with a clamp behind a driver whose
/// supply may be off, and a netlist that realises it and in which each power and ground pin has one supply; and so their
/// runs agree.
#[tactic(auto, using(crate::proofs::Premises::agreement_of_a_clamp))]
pub fn agreement_of_a_clamp()
    ensures { AgreementOfAClamp }
{}

/// So it is of a project with a power switch, a register with retention and a clamp.
#[tactic(auto, using(crate::proofs::Kept::agreement_of_a_register))]
pub fn agreement_of_a_register()
    ensures { AgreementOfARegister }
{}

/// And of a project with a level shifter and a clamp.
#[tactic(auto, using(crate::proofs::Shifted::agreement_of_a_shifter))]
pub fn agreement_of_a_shifter()
    ensures { AgreementOfAShifter }
{}
