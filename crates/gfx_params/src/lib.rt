//! The fields of calls and metadata, read from bytes and written to them.
#![tactic(auto)]

mod decoding;
mod encoding;
mod fault;
mod ids;
mod lists;
mod read;
mod records;
mod write;
mod write_lists;
mod write_records;

pub use decoding::{decode, decode_meta};
pub use encoding::{encode, encode_meta, length};
pub use fault::ParamFault;
pub use ids::{call_id, meta_id};
pub use read::{front_u32, front_u64};
