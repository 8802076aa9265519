//! The places of a function's temporaries, the registers that it saves, and its frame.
#![tactic(auto)]

mod entered;
mod frames;
mod located;

pub use entered::{is_entered, is_entry};
pub use frames::{
    FIRST_STACKED, HEAD_BYTES, LINK_PLACE, below, head_size, last_reach, numbers_of_frames,
    slot_offsets, slots_begin,
};
pub use located::{Located, Place};
