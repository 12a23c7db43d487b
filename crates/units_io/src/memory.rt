//! Sources, sinks and files in memory, with calls that can be made to fail.
mod files;
mod sink;
mod source;
mod table;

pub use files::MemFiles;
pub use sink::MemSink;
pub use source::MemSource;
