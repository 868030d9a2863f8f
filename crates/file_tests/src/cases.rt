// A case: a sound file, what is done to it and at which of its records, and the verdict on it then.
use super::chart_file::{BODY_AT, ChartFile, HIGH_AT, LOW_AT, TOP_AT};
use super::verdict::Verdict;
use reader::Counts;
use std::alloc::AllocError;

/// The record of a file that is damaged.
#[derive(Clone, Copy, Debug)]
pub enum Spot {
    Chart,
    FirstFix,
    SecondFix,
    MiddleFix,
    LastFix,
    FirstLeg,
    MiddleLeg,
    LastLeg,
    End,
}

/// What is done to a file, or to the memory that its legs are to be put into.
#[derive(Clone, Copy, Debug)]
pub enum Damage {
    Nothing,
    /// As many places of leg memory as legs.
    ExactRoom,
    /// One place of leg memory fewer than legs.
    OneShort,
    /// One place fewer, and the file ends in the record's mark.
    OneShortAndCut,
    /// The file ends after so many bytes of the record.
    Cut(usize),
    /// Other bytes in the record from its byte of this number on.
    At(usize, &'static [u8]),
    /// Another byte at the end of a name.
    LastNameByte(u8),
    /// These times of a leg, low and high.
    Times(u32, u32),
    /// This level of a leg.
    Top(u16),
    /// These counts in the chart's record, whichever record is then not due.
    Counts(u8, u16),
    /// These bytes after the end record.
    After(&'static [u8]),
    /// These bytes for the whole file.
    Written(&'static [u8]),
}

/// A file of a shape, what is done to it and at which of its records, and the verdict on it then.
#[derive(Clone, Copy, Debug)]
pub struct Case {
    pub verdict: Verdict,
    pub shape: Counts,
    pub spot: Spot,
    pub damage: Damage,
}

impl Case {
    // How many records stand before that of the spot.
    fn record(&self) -> usize {
        let n = self.shape.fixes as usize;
        let m = self.shape.legs as usize;
        match self.spot {
            Spot::Chart => 0,
            Spot::FirstFix => 1,
            Spot::SecondFix => 2,
            Spot::MiddleFix => n / 2,
            Spot::LastFix => n,
            Spot::FirstLeg => n + 1,
            Spot::MiddleLeg => n + 1 + m / 2,
            Spot::LastLeg => n + m,
            Spot::End => n + m + 1,
        }
    }

    /// The place of the fault: too little memory is told at the chart's record, bytes after the end record after it.
    pub fn place(&self, file: &ChartFile) -> usize {
        match self.verdict {
            Verdict::BytesAfter => file.place(self.record().saturating_add(1)),
            Verdict::NoRoom => 0,
            _ => file.place(self.record()),
        }
    }

    /// How many places of leg memory the reader is given: three more than the file has legs, unless the damage says otherwise.
    pub fn room(&self) -> usize {
        let legs = self.shape.legs as usize;
        match self.damage {
            Damage::ExactRoom => legs,
            Damage::OneShort | Damage::OneShortAndCut => legs.saturating_sub(1),
            _ => legs + 3,
        }
    }

    /// Does the damage to the file. Like all that allocates here, it is refused where there is no memory.
    pub fn damage_file(&self, file: &mut ChartFile) -> Result<(), AllocError> {
        let start = file.place(self.record());
        let end = file.place(self.record().saturating_add(1));
        let bytes = &mut file.bytes;
        match self.damage {
            Damage::OneShortAndCut => bytes.truncate(start.saturating_add(1)),
            Damage::Cut(kept) => bytes.truncate(start.saturating_add(kept)),
            Damage::At(i, by) => overwrite(bytes, start.saturating_add(i), by),
            Damage::LastNameByte(byte) => overwrite(bytes, end.saturating_sub(1), &[byte]),
            Damage::Times(low, high) => {
                overwrite(bytes, start.saturating_add(LOW_AT), &low.to_be_bytes());
                overwrite(bytes, start.saturating_add(HIGH_AT), &high.to_be_bytes());
            }
            Damage::Top(top) => overwrite(bytes, start.saturating_add(TOP_AT), &top.to_be_bytes()),
            Damage::Counts(n, m) => {
                let [m1, m2] = m.to_be_bytes();
                overwrite(bytes, BODY_AT, &[n, m1, m2]);
            }
            Damage::After(more) => bytes.extend_from_slice(more)?,
            Damage::Written(all) => {
                bytes.clear();
                bytes.extend_from_slice(all)?;
            }
            _ => {}
        }
        Ok(())
    }
}

fn overwrite(bytes: &mut Vec<u8>, place: usize, by: &[u8]) {
    for (held, byte) in bytes.iter_mut().skip(place).zip(by) {
        *held = *byte;
    }
}
