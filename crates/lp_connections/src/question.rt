/// What is asked of connections, assigns and cells, one after another.
#[derive(Clone, Copy)]
pub(crate) enum Question {
    /// Whether each connection has a pin that takes it.
    Pins,
    /// Whether one names a power or ground pin.
    Powered,
    /// Whether both sides have as many bits.
    Widths,
    /// Whether a source may have the cell.
    Cells,
}
