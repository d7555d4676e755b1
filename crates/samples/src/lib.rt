// The example map files that documents, tests and the table of solved examples share.
//
// Each function answers the bytes of one file, as specs/Files has them. `examples_stand` answers 0, and its contract is the table of
// examples of the two formats: each is an equation of the definitions that the formats' contracts cite. What a question on the files
// answers is not said here: the crate `solved` does.
#![tactic(auto)]

ghost use Rattle.std.specs.Prelude.{◌≡◌};
ghost use Rattle.samples.specs.Examples.{SheetExamples, BlockExamples};
ghost use Rattle.samples.specs.Files.{four_junctions, two_ways, two_cells};

/// The sheet with four junctions and five streets.
pub fn four_junctions() -> [u8; 70]
    ensures { result ≡ four_junctions }
{
    *b"\x53\x04\x05\x00\x01\x00\x05\x00\x02\x00\x01\x00\x04\x00\x03\x00\x05\x00\x02\x00\x01\x02\x03\x00\x00\x00\x03\x00\x00\x00\x02\x04\x04\x00\x00\x00\x00\x00\x04\x00\x01\x03\x05\x00\x00\x00\x00\x00\x00\x00\x03\x04\x05\x00\x00\x00\x00\x00\x00\x00\x04\x01\x01\x00\x00\x00\x00\x00\x00\x00"
}

/// The sheet of two ways of equal length.
pub fn two_ways() -> [u8; 60]
    ensures { result ≡ two_ways }
{
    *b"\x53\x04\x04\x00\x01\x00\x00\x00\x03\x00\x01\x00\x04\x00\x02\x00\x00\x00\x03\x00\x01\x02\x01\x00\x00\x00\x02\x00\x00\x00\x01\x03\x01\x00\x00\x00\x00\x00\x00\x00\x02\x04\x01\x00\x00\x00\x00\x00\x04\x00\x03\x04\x01\x00\x00\x00\x00\x00\x00\x00"
}

/// The block of two cells side by side, the left one open to the east.
pub fn two_cells() -> [u8; 5]
    ensures { result ≡ two_cells }
{
    *b"\x47\x02\x01\x02\x30"
}

// The examples stand.
pub fn examples_stand() -> u8
    ensures { SheetExamples × BlockExamples × (result ≡ 0) }
{
    0
}
