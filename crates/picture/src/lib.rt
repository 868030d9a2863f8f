// Pictures of charts: the fixes and legs of any chart as SVG, with a route. It is drawing, and no promise is made of it: the program
// `picture_run` draws small charts, and what it draws is compared with a stored output.
#![tactic(auto)]

mod arrangement;
mod drawing;
mod scale;

pub use drawing::{Drawing, svg_of};
