// The line of measures: six decimal values, split by single blanks.
ghost use Rattle.std.specs.Prelude.{◌≡◌};
ghost use Rattle.lines.specs.MeasureLines.{measures_line};

use super::fields;

// What a line of measures says, by the customer's letters: data disks, stripes, bytes in a block, log records, hash slots and places.
#[derive(Clone, Copy, PartialEq, Eq, Debug)]
pub struct Measures {
    pub d: usize,
    pub s: usize,
    pub b: usize,
    pub l: usize,
    pub h: usize,
    pub e: usize,
}

// The measures that a line says, if it can be read.
pub fn read_measures(line: &[u8]) -> Option<Measures>
    ensures { result ≡ measures_line line.now }
{
    let [d, s, b, l, h, e]: [usize; 6] = fields::read_values(line)?;
    Some(Measures { d, s, b, l, h, e })
}
