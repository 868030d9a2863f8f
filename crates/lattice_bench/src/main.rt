// Times the route of least regret on lattices of every size. Answers go to standard output, times to standard error.
#![tactic(auto)]

mod courses;
mod drawing;
mod spreads;
mod timing;

use courses::Course;
use drawing::drawn_lattice;
use spreads::Spread;
use timing::show;

const ROWS: [u16; 3] = [3, 5, 10];

const COLUMNS: [u16; 4] = [10, 14, 17, 20];

const SPREADS: [Spread; 4] = [Spread::Near, Spread::Medium, Spread::Wide, Spread::Same];

const COURSES: [Course; 2] = [Course::Middle, Course::Corner];

// Answers the lattices of one size.
fn show_size(rt: &HostRuntime, rows: u16, columns: u16) -> anyhow::Result<()> {
    let alloc = rt.alloc();
    for spread in SPREADS {
        let lattice = drawn_lattice(alloc, rows, columns, spread)?;
        for course in COURSES {
            let name = format!(in alloc; "{rows} {columns} {spread} {course}")?;
            show(rt, name.as_str(), &lattice, course.ends(rows, columns))?;
        }
    }
    Ok(())
}

fn main(rt: HostRuntime) -> anyhow::Result<()> {
    for rows in ROWS {
        for columns in COLUMNS {
            show_size(&rt, rows, columns)?;
        }
    }
    Ok(())
}
