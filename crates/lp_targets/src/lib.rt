//! What each instance of a netlist is of, by place, how its modules contain one another and how much each has, or the first
//! fault of names, targets and modules.
#![tactic(auto)]

mod counts;
mod depth;
mod hierarchy;
mod index;
mod laws;
mod limits;
mod looped;
mod order;
mod own;
mod reserved;
mod resolve;
mod rows;
mod size;
mod target;
mod tops;
mod unknown;

pub use hierarchy::{Hierarchy, hierarchy_of};
pub use laws::{
    capped_by_place, capped_tells_over, depth_of_modules_is_enough, first_by_place,
    loop_means_recursion, no_loop_means_no_recursion, order_means_no_recursion, recursion_by_place,
    together_by_module,
};
pub use limits::capped_row;
pub use looped::{first_recursive, ordered_modules};
pub use order::modules_in_order;
pub use resolve::targets_of;
pub use size::Size;
pub use target::Target;
pub use tops::{one_top, top_place};
