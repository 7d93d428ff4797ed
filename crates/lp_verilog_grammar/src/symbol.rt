use lp_verilog_tokens::Mark;

/// What a netlist text has to go on with: a symbol of the grammar.
#[derive(Clone, Copy)]
pub enum Symbol {
    /// Modules, up to the end of the text.
    Source,
    /// The name of a module.
    ModuleName,
    /// A header in parentheses and `;`, or `;` alone.
    Header,
    /// What stands in the parentheses of a header, and `)`.
    Ports,
    /// More names of ports, and `)`.
    PortsMore,
    /// The name of a port without a direction.
    PortName,
    /// More declarations of ports, and `)`.
    HeaderMore,
    /// A port of a header behind a comma, with or without a direction of its own.
    HeaderPort,
    /// This mark.
    Expect(Mark),
    /// What follows `input` or `output`: `wire`, a range, a name.
    Declared,
    /// What follows `wire`: a range, a name.
    Vector,
    /// A name that is declared.
    DeclaredName,
    /// The left bound of a range.
    LeftBound,
    /// The right bound of a range.
    RightBound,
    /// The items of a module, and `endmodule`.
    Items,
    /// More names of a declaration, and `;`.
    DeclaredMore,
    /// The name of an instance, and its connections.
    InstanceName,
    /// More instances, and `;`.
    InstanceMore,
    /// The connections of an instance, and `)`.
    Connections,
    /// More named connections, and `)`.
    NamedMore,
    /// The name of a connection, and its value in parentheses.
    ConnectionName,
    /// The value of a named connection, perhaps none, and `)`.
    NamedValue,
    /// The end of a named connection: `)`.
    NamedEnd,
    /// More ordered connections, and `)`.
    OrderedMore,
    /// A value.
    Value,
    /// A select of the name before it, perhaps none.
    Tail,
    /// More values of a concatenation, and `}`.
    ConcatMore,
    /// The index of a select.
    Index,
    /// The end of a select: `]`, or a second index before it.
    IndexMore,
    /// The second index of a select.
    SecondIndex,
    /// The sign of an assignment.
    AssignSign,
    /// More assignments, and `;`.
    AssignMore,
}

/// What a token does to the netlist.
#[derive(Clone, Copy)]
pub enum Action {
    /// Nothing.
    Pass,
    /// Begins a module of this name.
    BeginModule,
    /// Lists a port whose direction follows in the items.
    ListPort,
    /// Gives the direction of ports in a header.
    HeaderDirection,
    /// Gives the direction of ports in an item.
    ItemDirection,
    /// Begins a declaration of wires.
    ItemWires,
    /// Declares this name.
    Declare,
    /// Ends a module.
    EndModule,
    /// Gives the left bound of a range.
    LeftBound,
    /// Gives the right bound of a range.
    RightBound,
    /// Gives the target of instances.
    Target,
    /// Begins an instance of this name.
    BeginInstance,
    /// Ends an instance.
    EndInstance,
    /// Begins a list of ordered connections with a value.
    FirstOrdered,
    /// Ends an ordered connection.
    NextOrdered,
    /// Ends the last ordered connection and its instance.
    LastOrdered,
    /// Gives the name of a connection.
    ConnectionName,
    /// Ends a named connection.
    EndNamed,
    /// Begins the left side of an assignment.
    BeginAssign,
    /// Ends the left side of an assignment.
    EndLeft,
    /// Ends an assignment, and begins the next one.
    NextAssign,
    /// Ends the last assignment.
    LastAssign,
    /// Begins a value: a name, a constant or a concatenation.
    StartValue,
    /// Begins a select of a vector.
    Select,
    /// Gives the index of a select.
    Index,
    /// Ends a select of one bit.
    OneBit,
    /// Ends a select of bits up to this index.
    ManyBits,
}
