//! An operator's points file, read by proof: what its bytes say is what is written, or it is refused with the line and the column.
#![tactic(auto)]

mod entry;
mod reading;
mod walking;

pub use entry::{PointsAnswer, sitjorbe_read_points};
pub use reading::{Ended, Fault, Given, Reader, Remark, Spot};
pub use walking::{separator_of, unmarked};
