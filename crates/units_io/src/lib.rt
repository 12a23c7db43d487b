//! Texts, lists of texts and the bytes that separate words, and the things that a program reads from and writes to:
//! sources, sinks and files, both of the system and in memory.
#![tactic(auto)]

mod blanks;
mod files;
mod hash_seed;
mod laws;
mod list;
mod memory;
mod scan;
mod sink;
mod source;
mod steps;
mod system;
mod text;
mod vars;

pub use blanks::is_blank;
pub use files::{FetchFault, Files, LONGEST_FILE, StoreFault};
pub use hash_seed::HashSeed;
pub use laws::process_variables_law;
pub use list::{List, Texts};
pub use memory::{MemFiles, MemSink, MemSource};
pub use scan::prefix_len;
pub use sink::{Sink, put_all};
pub use source::{Failed, Source};
pub use steps::Steps;
pub use system::{
    DirFiles, StdSink, StdSource, SteadyRead, SteadyWrite, collect_vars, collect_words,
};
pub use text::Text;
pub use vars::Vars;
