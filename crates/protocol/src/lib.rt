// The protocol of the program: its commands, how they are taken from the lines of a script, and the line that is replied to each.
#![tactic(auto)]

mod command;
mod parsing;
mod rejection;
mod reply_line;

pub use command::{Command, LatticeRequest, Line, PlanCall, PlanCommand, Verb};
pub use parsing::parse_line;
pub use rejection::{AnyRefusal, CommandError, Rejection};
pub use reply_line::{Answer, ReplyLine};
