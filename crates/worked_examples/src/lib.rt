// A small chart and a small file whose answers were worked out by hand, and what is proved of them from the definitions.
#![tactic(auto)]

ghost use Rattle.std.specs.Prelude.{◌≡◌};
ghost use Rattle.chart.specs.declared.row.Standing.TheVariants.{Open};
ghost use Rattle.worked_examples.specs.FourFix.{row, four_fix_rows};
ghost use Rattle.worked_examples.specs.TwoFix.{two_fix_file};
ghost use Rattle.worked_examples.specs.AllExamples.{AllExamples};

use chart::{Row, Standing};

// An open row.
fn open(from: u16, to: u16, low: u32, high: u32, top: u16) -> Row
    ensures { result ≡ row from to low high top Open }
{
    Row {
        from,
        to,
        low,
        high,
        top,
        standing: Standing::Open,
    }
}

/// The rows of a chart with four fixes and five legs: of each leg the two fixes, the low and the high time in seconds, and the top level.
pub fn four_fix_rows() -> [Row; 5]
    ensures rows { result ≡ four_fix_rows }
    ensures worked { AllExamples result }
{
    [
        open(0, 1, 300, 400, 390),
        open(1, 3, 300, 500, 350),
        open(0, 2, 200, 600, 410),
        open(2, 3, 250, 450, 370),
        open(1, 2, 50, 100, 330),
    ]
}

/// The file of a chart with the two fixes AA and BB and no legs.
pub fn two_fix_file() -> [u8; 17]
    ensures { result ≡ two_fix_file }
{
    *b"CH\x02\x00\x00FX\x02AAFX\x02BBEN"
}
