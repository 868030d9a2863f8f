// The records of a chart file: marks, bodies and faults, and what a whole file means or which fault it has.
#![tactic(auto)]

mod faults;
mod input;
mod record;
pub mod sizes;

pub use faults::{BytesFault, ChartFault, Fault, Layer, RecordFault, Report};
pub use input::{Input, rest_from};
pub use record::{Record, RecordKind, row_in_body};
