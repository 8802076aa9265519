//! What is known of temporaries at the fronts of blocks, by the data-flow solver: the lattice of rows, rewritings of flow
//! graphs, and the least solution of each.
#![tactic(auto)]

mod edges;
mod flats;
mod fronts;
mod laws;
mod rewriting;
mod row;
mod rows;
mod view;

pub use fronts::find_fronts;
pub use laws::solutions_exist;
pub use rewriting::Rewriting;
pub use row::Row;
pub use view::View;
