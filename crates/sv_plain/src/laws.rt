// What holds without code: of the steps, of histories, and of the shares of inodes.
mod histories;
mod shares;
mod steps;

pub use histories::{histories_grow, histories_keep_sizes, histories_lead_legally};
pub use shares::{shares_are_counted, unshared_is_unreferenced};
pub use steps::steps_keep_whole;
