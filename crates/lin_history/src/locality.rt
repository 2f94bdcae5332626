//! Orders of the objects, joined in one order of the whole history: a history is linearizable exactly
//! where its part on each object is (Herlihy and Wing 1990).

pub mod joining;
pub mod law;
pub mod placed;
pub mod placing;

pub use joining::join;
pub use law::locality_law;
pub use placed::{Placed, WholeOrder};
pub use placing::place;
