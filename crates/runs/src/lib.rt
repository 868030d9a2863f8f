// Runs of calls on a filed plan, and the law that every run keeps.
#![tactic(auto)]

mod call;
pub mod file_and_run;
mod reply;
pub mod run;

pub use call::Call;
pub use file_and_run::RunRejected;
pub use reply::Reply;
pub use run::RunRefusal;
