//! The words and frames of FRED as bytes.
#![tactic(auto)]

mod config;
mod frame;

pub use config::{
    FredConfig, Reserved, StackLevels, config_laws, config_word, level_rsp, read_config,
};
pub use frame::{Frame64, FrameFault, frame_bytes, frame_laws, read_frame};
