//! The streams, files, words and variables that the system provides. Nothing is known about what they contain, but the
//! bytes that a stream accepted are noted. Streams and files count their failures.
mod byte_log;
mod file_read;
mod file_write;
mod files;
mod process;
mod sink;
mod source;
mod steady;

pub use files::DirFiles;
pub use process::{collect_vars, collect_words};
pub use sink::StdSink;
pub use source::StdSource;
pub use steady::{SteadyRead, SteadyWrite};
