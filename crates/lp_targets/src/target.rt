/// What an instance is of. It takes 8 bytes.
#[derive(Clone, Copy)]
pub enum Target {
    /// A module, by its place in the netlist.
    OfModule(u32),
    /// A cell, by its place in the library.
    OfCell(u32),
}
