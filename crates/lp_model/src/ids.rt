/// A net bit of a graph: counts its nodes from 0.
#[derive(Clone, Copy)]
pub struct NodeId(pub u32);

/// A port connection or an assign of a graph: counts its edges from 0.
#[derive(Clone, Copy)]
pub struct EdgeId(pub u32);

/// A module instance of a graph: counts the instances in preorder, the top is 0.
#[derive(Clone, Copy)]
pub struct InstId(pub u32);

/// A cell instance of a graph: counts its leaves in preorder from 0.
#[derive(Clone, Copy)]
pub struct LeafId(pub u32);

/// A cell of a library: counts the cells in the order of the texts from 0.
#[derive(Clone, Copy)]
pub struct CellId(pub u32);

/// A supply origin: counts the origins in the order of the commands that made them from 0.
#[derive(Clone, Copy)]
pub struct OriginId(pub u32);

/// A supply set: counts the sets in the order of their making from 0.
#[derive(Clone, Copy)]
pub struct SetId(pub u32);

/// A strategy of any kind: counts the strategies in command order from 0.
#[derive(Clone, Copy)]
pub struct StrategyId(pub u32);
