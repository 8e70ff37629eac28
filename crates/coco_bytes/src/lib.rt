//! Fields as bytes: numbers with their highest byte first, and bytes with their length in front.
#![tactic(auto)]

pub mod fault;
pub mod laws;
mod reading;
mod values;
mod writing;

pub use fault::FieldFault;
pub use reading::{get_bytes16, get_flag, get_i64, get_u8, get_u16, get_u32, get_u64};
pub use values::{get_key, get_value, packed_fits, put_key, put_packed, put_value};
pub use writing::{put_bytes16, put_flag, put_i64, put_u8, put_u16, put_u32, put_u64};
