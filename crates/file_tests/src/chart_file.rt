// Files of charts, written without any function of the reader.
use chart::{Row, Standing};
use reader::Counts;
use std::alloc::{AllocError, Global};

/// Where in a record its body begins: the counts of a chart, the length of a name, the two fixes of a leg.
pub const BODY_AT: usize = 2;

/// Where in a fix's record its name begins.
pub const NAME_AT: usize = 3;

/// Where in a leg's record its low, its high and its top begin.
pub const LOW_AT: usize = 4;

pub const HIGH_AT: usize = 8;

pub const TOP_AT: usize = 12;

/// The bytes of a leg's record.
pub const LEG_RECORD: usize = 14;

/// The bytes of a file, the places of its records and of its end, and its legs.
#[derive(Drop)]
pub struct ChartFile {
    pub bytes: Vec<u8>,
    pub places: Vec<usize>,
    pub rows: Vec<Row>,
}

impl ChartFile {
    /// The place of the record of this number, or of the end after all of them.
    pub fn place(&self, record: usize) -> usize {
        self.places.get(record).copied().unwrap_or(0)
    }

    fn push_record(&mut self, record: &[u8]) -> Result<(), AllocError> {
        self.places.push(self.bytes.len())?;
        self.bytes.extend_from_slice(record)
    }
}

// A leg that goes from one of `n` fixes to one 1 to n - 1 further on. Leg 0 has the longest times and the highest level.
fn row_of(leg: u16, n: u16) -> Row {
    let n = n.max(2) as u32;
    let k = leg as u32;
    let high = 100_000 - k * 61 % 100_001;
    Row {
        from: (k % n) as u16,
        to: ((k % n + 1 + k % (n - 1)) % n) as u16,
        low: high.saturating_sub(k * 97),
        high,
        top: 600 - leg % 601,
        standing: Standing::Open,
    }
}

// The name of a fix. Eight fixes have two names each of 2, 3, 4 and 5 bytes, and the shorter ones begin the longer; the first byte
// differs from that of all other eights.
fn name_of(alloc: Global, fix: u16) -> Result<Vec<u8>, AllocError> {
    let letter = b'A' + (fix / 8 % 26) as u8;
    let digit = b'0' + (fix % 2) as u8;
    let mut name = vec![in alloc; letter, digit, b'Z', b'9', b'Q']?;
    name.truncate(2 + (fix / 2 % 4) as usize);
    Ok(name)
}

// The record of a leg.
fn leg_bytes(alloc: Global, row: &Row) -> Result<Vec<u8>, AllocError> {
    let mut bytes = vec![in alloc; b'L', b'G', (row.from & 0xff) as u8, (row.to & 0xff) as u8]?;
    bytes.extend_from_slice(&row.low.to_be_bytes())?;
    bytes.extend_from_slice(&row.high.to_be_bytes())?;
    bytes.extend_from_slice(&row.top.to_be_bytes())?;
    Ok(bytes)
}

/// The file of a chart of so many fixes and legs, which has no fault.
pub fn sound_file(alloc: Global, shape: Counts) -> Result<ChartFile, AllocError> {
    let mut file = ChartFile {
        bytes: Vec::new(alloc),
        places: Vec::new(alloc),
        rows: Vec::new(alloc),
    };
    let [_, n] = shape.fixes.to_be_bytes();
    let [m1, m2] = shape.legs.to_be_bytes();
    file.push_record(&[b'C', b'H', n, m1, m2])?;
    for fix in 0..shape.fixes {
        let name = name_of(alloc, fix)?;
        file.push_record(&[b'F', b'X', (name.len() & 0xff) as u8])?;
        file.bytes.extend_from_slice(&name)?;
    }
    for leg in 0..shape.legs {
        let row = row_of(leg, shape.fixes);
        file.push_record(&leg_bytes(alloc, &row)?)?;
        file.rows.push(row)?;
    }
    file.push_record(b"EN")?;
    file.push_record(&[])?;
    Ok(file)
}
