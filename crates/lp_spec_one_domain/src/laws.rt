//! The laws of projects of one domain: each is the clause of a function that only calls others.
ghost use Rattle.lp_spec_one_domain.specs.Laws.{NothingIsPlanned, OneDomainImplements, OneDomainIsInsertable, OneDomainIsRead, OneDomainIsWithinLimits, ReadSources};
ghost use Rattle.lp_spec_one_domain.specs.Met.{OneDomainIsMet};

use lp_spec_read::{
    read_cell_names_differ, read_cells_have_sound_pins, read_netlists_declare_their_bits,
};
use lp_spec_together::shared_implements;

/// A netlist that a text denotes, over the cells that libraries denote, is what readers give.
pub fn read_sources()
    ensures { ReadSources }
{
    read_netlists_declare_their_bits();
    read_cells_have_sound_pins();
    read_cell_names_differ();
}

/// No operator, no register with retention and no switch is added to it.
pub fn nothing_is_planned()
    ensures { NothingIsPlanned }
{}

/// Its project is read.
pub fn one_domain_is_read()
    ensures { OneDomainIsRead }
{}

/// No line of the table of faults holds of its project, where none holds of the netlist, no node depends on itself and each
/// cell is lost with its one supply.
pub fn one_domain_is_insertable()
    ensures { OneDomainIsInsertable }
{}

/// Its project is within limits.
pub fn one_domain_is_within_limits()
    ensures { OneDomainIsWithinLimits }
{}

/// So the netlist that is written for it, with each content once, implements it, and for all events within the rows and all
/// states of the registers shows what the source shows under its power intent.
pub fn one_domain_implements()
    ensures { OneDomainImplements }
{
    read_sources();
    one_domain_is_read();
    one_domain_is_insertable();
    one_domain_is_within_limits();
    shared_implements();
}

/// All that is asked can be met at once, by a netlist of two modules with a vector, an assign and a register.
pub fn one_domain_is_met()
    ensures { OneDomainIsMet }
{
    one_domain_is_read();
    one_domain_is_insertable();
    one_domain_is_within_limits();
    shared_implements();
}
