use crate::fault::intent::IntentFault;
use crate::fault::library::LibraryFault;
use crate::fault::netlist::NetlistFault;
use crate::fault::refusal::{DesignFault, Fault, Refusal};
use crate::fault::run::{EventFault, GeneratorFault, PinFault};
use crate::fault::strategy::StrategyFault;
use crate::fault::supply::SupplyFault;

impl From<LibraryFault> for Refusal {
    ghost use Rattle.std.specs.Prelude.{◌≡◌};
    ghost use Rattle.lp_model.specs.Refusals.{library_refusal};

    ghost from_gives = { λ f r. r ≡ library_refusal f };

    fn from(fault: LibraryFault) -> Refusal {
        Refusal::Fault(Fault::Design(DesignFault::Library(fault)))
    }
}

impl From<NetlistFault> for Refusal {
    ghost use Rattle.std.specs.Prelude.{◌≡◌};
    ghost use Rattle.lp_model.specs.Refusals.{netlist_refusal};

    ghost from_gives = { λ f r. r ≡ netlist_refusal f };

    fn from(fault: NetlistFault) -> Refusal {
        Refusal::Fault(Fault::Design(DesignFault::Netlist(fault)))
    }
}

impl From<IntentFault> for Refusal {
    ghost use Rattle.std.specs.Prelude.{◌≡◌};
    ghost use Rattle.lp_model.specs.Refusals.{intent_refusal};

    ghost from_gives = { λ f r. r ≡ intent_refusal f };

    fn from(fault: IntentFault) -> Refusal {
        Refusal::Fault(Fault::Design(DesignFault::Intent(fault)))
    }
}

impl From<SupplyFault> for Refusal {
    ghost use Rattle.std.specs.Prelude.{◌≡◌};
    ghost use Rattle.lp_model.specs.Refusals.{supply_refusal};

    ghost from_gives = { λ f r. r ≡ supply_refusal f };

    fn from(fault: SupplyFault) -> Refusal {
        Refusal::Fault(Fault::Design(DesignFault::Supply(fault)))
    }
}

impl From<StrategyFault> for Refusal {
    ghost use Rattle.std.specs.Prelude.{◌≡◌};
    ghost use Rattle.lp_model.specs.Refusals.{strategy_refusal};

    ghost from_gives = { λ f r. r ≡ strategy_refusal f };

    fn from(fault: StrategyFault) -> Refusal {
        Refusal::Fault(Fault::Design(DesignFault::Strategy(fault)))
    }
}

impl From<EventFault> for Refusal {
    ghost use Rattle.std.specs.Prelude.{◌≡◌};
    ghost use Rattle.lp_model.specs.Refusals.{event_refusal};

    ghost from_gives = { λ f r. r ≡ event_refusal f };

    fn from(fault: EventFault) -> Refusal {
        Refusal::Fault(Fault::Event(fault))
    }
}

impl From<PinFault> for Refusal {
    ghost use Rattle.std.specs.Prelude.{◌≡◌};
    ghost use Rattle.lp_model.specs.Refusals.{pin_refusal};

    ghost from_gives = { λ f r. r ≡ pin_refusal f };

    fn from(fault: PinFault) -> Refusal {
        Refusal::Fault(Fault::Pins(fault))
    }
}

impl From<GeneratorFault> for Refusal {
    ghost use Rattle.std.specs.Prelude.{◌≡◌};
    ghost use Rattle.lp_model.specs.Refusals.{generator_refusal};

    ghost from_gives = { λ f r. r ≡ generator_refusal f };

    fn from(fault: GeneratorFault) -> Refusal {
        Refusal::Fault(Fault::Generator(fault))
    }
}
