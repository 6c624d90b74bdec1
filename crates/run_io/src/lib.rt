//! What a run asks of the outside: the words of the command line, the files of a command, and the sink that its output goes to.
#![tactic(auto)]

mod fetching;
mod putting;
mod words;

pub use fetching::{Contents, PairContents, Stop, fetch_all, fetch_pair};
pub use putting::put_all;
pub use words::{Command, FileKind, Names, PairNames, command_of, name_of, pair_name_of};
