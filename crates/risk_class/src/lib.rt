// The intrinsic class of the class table, and the final class after the mitigation word.
#![tactic(auto)]

mod class_table;
mod credits;
mod mitigation;

pub use class_table::{IntrinsicClass, intrinsic_class, used_row};
pub use mitigation::{FinalClass, final_class};
