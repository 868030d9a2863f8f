// The name of a fix, and the refusal where there is no such fix.
ghost use Rattle.std.specs.Prelude.{Some};
ghost use Rattle.reader.specs.Readings.{name_number, name_words};

use chart::Refusal;
use std::error::Error;
use std::fmt;

/// The name of a fix.
#[derive(Clone, Copy, Debug, PartialEq, Eq)]
pub struct FixName<'a> {
    /// The bytes of the name: that part of the file itself.
    pub text: &'a [u8],
    /// Where they begin in the file, in bytes from its beginning.
    pub place: usize,
}

/// The refusal (11) where the accepted file has no fix of this number, or no file is accepted yet.
#[derive(Clone, Copy, Debug, PartialEq, Eq)]
pub struct NoSuchFix;

impl Refusal for NoSuchFix {
    ghost number_of = { name_number };

    fn number(&self) -> u8 {
        11
    }
}

impl fmt::Display for NoSuchFix {
    ghost output = { λ refusal. Some (name_words refusal) };

    fn fmt<W: fmt::Write>(&self, f: &mut fmt::Formatter<W>) -> fmt::Result {
        f.write_str("no such fix")
    }
}

impl Error for NoSuchFix {}
