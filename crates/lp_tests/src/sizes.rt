//! What entries of large tables take.
use lp_model::{
    Bits, Connection, Edge, Inst, Instance, Leaf, Node, Operator, PinNet, RowState, Run, SetSlot,
    SideWinners, UpfWord,
};
use std::mem::size_of;

#[test]
fn entries_of_large_tables_are_small(rt: HostRuntime) {
    let table = [
        ("Node", size_of::<Node>(), 24),
        ("Edge", size_of::<Edge>(), 16),
        ("PinNet", size_of::<PinNet>(), 8),
        ("Leaf", size_of::<Leaf>(), 16),
        ("Inst", size_of::<Inst>(), 20),
        ("Bits", size_of::<Bits>(), 16),
        ("Run", size_of::<Run>(), 16),
        ("Connection", size_of::<Connection>(), 24),
        ("Instance", size_of::<Instance>(), 40),
        ("SetSlot", size_of::<SetSlot>(), 4),
        ("SideWinners", size_of::<SideWinners>(), 8),
        ("Operator", size_of::<Operator>(), 20),
        ("UpfWord", size_of::<UpfWord>(), 16),
        ("RowState", size_of::<RowState>(), 16),
    ];
    for (name, size, want) in table {
        assert_eq!(rt; size, want, "{name}");
    }
}
