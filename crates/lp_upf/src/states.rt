//! The tables of states so far, each with the number of its supplies.
ghost use Rattle.std.specs.Prelude.{◌≡◌, ◌<◌, ◌∷◌, [], length, true, OnOk, nat_eq};
ghost use Rattle.lp_text.specs.Texts.{text_at};
ghost use Rattle.lp_model.specs.Agreement.{numbers_below};
ghost use Rattle.lp_spec_upf.specs.Commands.{supplies_of};
ghost use Rattle.lp_upf.specs.States.{SameTables, tables_numbers, tables_view};

use indexmap::IndexMap;
use lp_text::{NameId, Names, NoMemory};
use std::alloc::Global;
use std::marker::Model;

/// The tables of states so far: contracts see the list of numbers of names, each with its number of supplies.
#[derive(Drop)]
pub(crate) struct States {
    entries: IndexMap<u32, usize>,
}

impl Model for States {
    ghost use Rattle.std.specs.Prelude.{List, ℕ};

    ghost Value = { List (ℕ × ℕ) };

    ghost view = { λ s. s.entries.entries };
}

impl States {
    /// No tables.
    pub(crate) fn new(alloc: Global) -> States
        ensures { result ≡ [] }
    {
        States {
            entries: IndexMap::new(alloc),
        }
    }

    /// The number of supplies of a table.
    #[tactic(auto, using(crate::proofs::Stated::found))]
    pub(crate) fn supplies(&self, names: &Names, name: NameId) -> Option<usize>
        requires known { name.0 < length names.now }
        requires below { numbers_below (length names.now) (tables_numbers self.now) ≡ true }
        ensures { result ≡ supplies_of (tables_view names.now self.now) (text_at names.now name.0) }
    {
        let _names = names.count();
        self.entries.get(&name.0).copied()
    }

    /// A table more, in place of the one with its name, if any.
    #[tactic(auto, using(crate::proofs::Stated::put, crate::proofs::Stated::put_below))]
    pub(crate) fn add(
        &mut self,
        names: &Names,
        name: NameId,
        supplies: usize,
    ) -> Result<(), NoMemory>
        requires known { name.0 < length names.now }
        requires below { numbers_below (length names.now) (tables_numbers self.old) ≡ true }
        ensures same { OnOk result (SameTables (tables_view names.now self.new) (record { name = text_at names.now name.0; supplies = supplies } ∷ tables_view names.now self.old)) }
        ensures below { OnOk result (numbers_below (length names.now) (tables_numbers self.new) ≡ true) }
    {
        let _names = names.count();
        self.entries.insert(name.0, supplies)?;
        Ok(())
    }
}
