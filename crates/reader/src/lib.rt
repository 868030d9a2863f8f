// Reads chart files: the legs into the caller's memory, the names by the numbers of their fixes, from the file that a reader borrows
// or an index owns.
#![tactic(auto)]

mod checked_file;
mod cursor;
mod file_index;
mod fix_name;
mod guard;
mod reader;

pub use file_index::{Counts, FileIndex};
pub use fix_name::{FixName, NoSuchFix};
pub use reader::Reader;
