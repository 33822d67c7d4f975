//! The second program as one call over any inputs and sinks: its commands, and how each ends.
#![tactic(auto)]

mod command;
mod complaint;
mod facts;
mod fields;
mod files;
mod number;
mod options;
mod split;
mod status;
mod top;

pub use command::{SplitSetting, ToolCommand, command_of, trace_words};
pub use files::{FileParts, TraceFile, trace_files};
pub use options::{folder_word, operands_of};
pub use status::ToolStatus;
pub use top::marple_tools;
