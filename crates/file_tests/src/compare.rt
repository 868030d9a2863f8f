// One case: what a reader and an index of the file answer, beside what is expected.
use super::cases::*;
use super::chart_file::*;
use chart::{Refusal, Row, Standing, Table};
use chart_format::Fault;
use reader::{Counts, FileIndex, FixName, NoSuchFix, Reader};
use std::alloc::{AllocError, Global};

// What every place of leg memory holds before a file is read.
const FILLER: Row = Row {
    from: 9999,
    to: 8888,
    low: 9,
    high: 8,
    top: 7777,
    standing: Standing::Closed,
};

// Whether memory has these rows in its first places, and in all others what they held before.
fn holds(memory: &[Row], rows: &[Row]) -> bool {
    memory
        .strip_prefix(rows)
        .is_some_and(|beyond| beyond.iter().all(|row| *row == FILLER))
}

// Whether the name is refused; the number itself is tested here.
fn is_no_name(answer: Result<FixName<'_>, NoSuchFix>) -> bool {
    answer.is_err_and(|refusal| refusal.number() == 11)
}

// Whether the answer is the name of the fix: the bytes of its record, at their place.
fn is_name(answer: Result<FixName<'_>, NoSuchFix>, fix: u16, file: &ChartFile) -> bool {
    let start = file.place(fix as usize + 1).saturating_add(NAME_AT);
    let end = file.place(fix as usize + 2);
    answer.is_ok_and(|name| name.place == start && file.bytes.get(start..end) == Some(name.text))
}

// Whether the reader has the name of each of so many fixes, and none for the next number.
fn has_names(reader: &Reader<'_>, fixes: u16, file: &ChartFile) -> bool {
    (0..fixes).all(|fix| is_name(reader.name(fix), fix, file)) && is_no_name(reader.name(fixes))
}

// And whether the index has.
fn index_has_names(index: &FileIndex, fixes: u16, file: &ChartFile) -> bool {
    (0..fixes).all(|fix| is_name(index.name(fix), fix, file)) && is_no_name(index.name(fixes))
}

// Whether the table has so many fixes and legs.
fn is_of_shape(table: &Table<'_>, shape: Counts) -> bool {
    table.fixes == shape.fixes && table.count == shape.legs
}

// Whether a table takes the legs from the reader.
fn has_table(reader: &Reader<'_>, memory: &[Row], shape: Counts) -> bool {
    memory.get(0..shape.legs as usize).is_some_and(|rows| {
        let mut table = Table::new(rows);
        reader.take_legs(&mut table).is_ok() && is_of_shape(&table, shape)
    })
}

// And whether it does from the index.
fn index_has_table(index: &FileIndex, memory: &[Row], shape: Counts) -> bool {
    memory.get(0..shape.legs as usize).is_some_and(|rows| {
        let mut table = Table::new(rows);
        index.take_legs(&mut table).is_ok() && is_of_shape(&table, shape)
    })
}

// Whether a reader of the damaged file answers as the case expects, with a fault at this place, and leaves what it should.
fn reader_is_as_expected(case: &Case, file: &ChartFile, place: usize, memory: &mut [Row]) -> bool {
    let mut reader = Reader::new(&file.bytes);
    let answer = reader.read_file(memory);
    match (answer, case.verdict.report(place)) {
        (Ok(counts), None) => {
            counts == case.shape
                && reader.place() == file.bytes.len()
                && holds(memory, &file.rows)
                && has_names(&reader, counts.fixes, file)
                && has_table(&reader, memory, case.shape)
        }
        (Err(fault), Some(report)) => {
            fault.report() == report
                && reader.place() == place
                && holds(memory, &[])
                && is_no_name(reader.name(0))
        }
        _ => false,
    }
}

// And whether an index does that owns these bytes, which are the file's.
fn index_is_as_expected(
    case: &Case,
    file: &ChartFile,
    place: usize,
    bytes: Vec<u8>,
    memory: &mut [Row],
) -> bool {
    match (FileIndex::read(bytes, memory), case.verdict.report(place)) {
        (Ok(index), None) => {
            index.counts() == case.shape
                && holds(memory, &file.rows)
                && index_has_names(&index, case.shape.fixes, file)
                && index_has_table(&index, memory, case.shape)
        }
        (Err(fault), Some(report)) => fault.report() == report && holds(memory, &[]),
        _ => false,
    }
}

/// Whether a reader and an index answer as the case expects, and leave what they should.
pub fn is_as_expected(alloc: Global, case: &Case) -> Result<bool, AllocError> {
    let mut file = sound_file(alloc, case.shape)?;
    let place = case.place(&file);
    case.damage_file(&mut file)?;
    let mut memory = vec![in alloc; FILLER; case.room()]?;
    let is_well = reader_is_as_expected(case, &file, place, memory.as_mut_slice());
    let mut memory = vec![in alloc; FILLER; case.room()]?;
    let bytes = file.bytes.clone()?;
    Ok(is_well && index_is_as_expected(case, &file, place, bytes, memory.as_mut_slice()))
}
