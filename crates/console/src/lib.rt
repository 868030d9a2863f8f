// The program: what it keeps between two commands, where commands come from, and the demo that it carries.
#![tactic(auto)]

mod chart_files;
mod current_chart;
mod demo;
mod plan_state;
mod program;
mod replies;
mod session;

pub use chart_files::{BuiltInFiles, Files, FolderFiles};
pub use demo::show_demo;
pub use program::{run, run_script};
pub use session::Session;
