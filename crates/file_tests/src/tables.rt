// Tables over rows in memory: one that is made, and one refused on each of its grounds.
use chart::{Chart, Refusal, Row, Standing, Table};

fn row(from: u16, to: u16, low: u32, high: u32) -> Row {
    Row {
        from,
        to,
        low,
        high,
        top: 390,
        standing: Standing::Open,
    }
}

// Five legs among four fixes.
fn four_fix_rows() -> [Row; 5] {
    [
        row(0, 1, 300, 400),
        row(1, 3, 300, 500),
        row(0, 2, 200, 600),
        row(2, 3, 250, 450),
        row(1, 2, 50, 100),
    ]
}

// Prints what a table of so many fixes over these rows has, or why there is none.
fn show_table(rt: &HostRuntime, fixes: u16, rows: &[Row]) -> anyhow::Result<()> {
    match Table::of(fixes, rows) {
        Ok(table) => println!(rt; "table {fixes}: {} fixes {} legs", table.n(), table.m())?,
        Err(refusal) => println!(rt; "table {fixes}: refused {}: {refusal}", refusal.number())?,
    }
    Ok(())
}

// Shows a table of four fixes, then one of too few fixes, one whose legs lead to a fix that it has not, and one with a low time above
// the high.
pub(crate) fn show_tables(rt: &HostRuntime) -> anyhow::Result<()> {
    let mut rows = four_fix_rows();
    show_table(rt, 4, &rows)?;
    show_table(rt, 1, &rows)?;
    show_table(rt, 3, &rows)?;
    rows[0] = row(0, 1, 400, 300);
    show_table(rt, 4, &rows)
}
