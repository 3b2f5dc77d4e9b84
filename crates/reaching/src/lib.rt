// Reaching: an array marks rows. Marks spread from each row to its targets, which are lower: so one pass in order
// of falling height marks every row that is reached, and no others. Where it is known how many arcs lead to each
// row, and all rows were reached until one row stopped being a root, only those rows are visited that nothing
// leads to any longer.
#![tactic(auto)]

mod leads;
mod marks;
mod spreads;

pub use leads::mark_without;
pub use marks::count_marked;
pub use spreads::mark_reached;
