ghost use Rattle.std.specs.Prelude.{◌≡◌, ◌+◌, ◌<◌, ◌++◌, true, length, map, IfOk, OnOk};
ghost use Rattle.lp_text.specs.Texts.{place_of, text_at};
ghost use Rattle.lp_model.specs.Agreement.{numbers_below};
ghost use Rattle.lp_places.specs.Places.{has_number, place_of_number};

use lp_model::{Module, NetDecl, Port};
use lp_places::Places;
use lp_text::{NameId, Names, NoMemory};
use std::alloc::Global;
use std::marker::Model;

/// The nets of a module by the numbers of their names, those of its ports first: contracts see the numbers.
#[derive(Drop)]
pub struct NetIndex {
    places: Places,
}

impl Model for NetIndex {
    ghost use Rattle.std.specs.Prelude.{List, ℕ};

    ghost Value = { List ℕ };

    ghost view = { λ i. i.places };
}

/// Adds the names of ports.
fn add_ports(places: &mut Places, ports: &[Port]) -> Result<(), NoMemory>
    requires { length places.old + length ports.now < 4294967295 }
    ensures { OnOk result (places.new ≡ places.old ++ map (λ p. p.name.0) ports.now) }
{
    for port in ports {
        places.push(port.name.0)?;
    }
    Ok(())
}

/// Adds the names of nets that are no ports.
fn add_nets(places: &mut Places, nets: &[NetDecl]) -> Result<(), NoMemory>
    requires { length places.old + length nets.now < 4294967295 }
    ensures { OnOk result (places.new ≡ places.old ++ map (λ n. n.name.0) nets.now) }
{
    for net in nets {
        places.push(net.name.0)?;
    }
    Ok(())
}

impl NetIndex {
    /// An index of the ports and nets of a module, together fewer than 4,294,967,295. `count` is the number of names
    /// of their table. Takes time and memory in proportion to the names, ports and nets.
    ///
    /// # Errors
    ///
    /// Only where memory is refused.
    pub fn new(alloc: Global, count: u32, source: &Module) -> Result<NetIndex, NoMemory>
        requires { length source.now.ports + length source.now.nets < 4294967295 }
        ensures { IfOk result (λ i. i ≡ map (λ p. p.name.0) source.now.ports ++ map (λ n. n.name.0) source.now.nets) }
    {
        let mut places = Places::new(alloc, count)?;
        add_ports(&mut places, source.ports.as_slice())?;
        add_nets(&mut places, source.nets.as_slice())?;
        Ok(NetIndex { places })
    }

    /// The first place of a name, if it has one. Takes constant time.
    pub fn find(&self, names: &Names, name: NameId) -> Option<u32>
        requires numbers { numbers_below (length names.now) self.now ≡ true }
        requires name { name.0 < length names.now }
        ensures { result ≡ place_of (text_at names.now name.0) (map (text_at names.now) self.now) }
    {
        let _count = names.count();
        self.places.find(name.0)
    }

    /// The first place of a name, by its number alone. Takes constant time.
    pub fn numbered(&self, name: NameId) -> Option<u32>
        ensures { result ≡ place_of_number name.0 self.now }
    {
        self.places.find(name.0)
    }

    /// Whether a name, by its number alone, is that of a port or net. Takes constant time.
    pub fn has(&self, name: NameId) -> bool
        ensures { result ≡ has_number name.0 self.now }
    {
        self.places.find(name.0).is_some()
    }

    /// How many ports and nets there are.
    pub fn len(&self) -> usize
        ensures { result ≡ length self.now }
    {
        self.places.len()
    }
}
