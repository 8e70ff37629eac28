//! The commands on a store that is there: requests are run on it, also those of a workload that is made from a number, what it has is told, lines that only read are answered
//! as it was at one of its epochs, it is given a keep number, it is made small, a lost file of it is made again.
#![tactic(auto)]

mod compacting;
mod dumping;
mod laws;
mod migrating;
mod opening;
mod querying;
mod rebuilding;
mod running;
mod saying;
mod stopping;
mod trying;
mod verifying;

pub use coco_asks::QueryBounds;
pub use coco_recover::{Opened, read_without, recover, recover_whole};
pub use coco_serve::RunBounds;
pub use coco_try::Workload;
pub use compacting::compact;
pub use dumping::dump;
pub use laws::a_layout_sets_the_keep_number;
pub use migrating::migrate;
pub use opening::{ending_of_opening, open_cluster};
pub use querying::query;
pub use rebuilding::rebuild;
pub use running::run;
pub use trying::try_out;
pub use verifying::verify;
