// What the map formats share: the trait of a format, the fault of an opening with its number, and numbers of several bytes.
//
// Each fault is one numbered reason to refuse a file, defined in specs/Faults. Nothing here knows a format.
#![tactic(auto)]

ghost use Rattle.std.specs.Prelude.{◌≡◌, ℕ, true, false, is_ok, List};
ghost use Rattle.formats.specs.Faults.{number_of, answered};
ghost use Rattle.maps.specs.Graph.{Graph};

use maps::TwoWay;

/// Why bytes are refused as a map file.
#[derive(Clone, Copy, PartialEq, Eq, Debug)]
pub enum OpenFault {
    /// Too few bytes to have a head.
    Short = 1,
    /// The first byte is another format's.
    FirstByte = 2,
    /// A count, width or height is out of range.
    Range = 3,
    /// The length is not exact.
    Size = 4,
    /// A slot record with tail 0 has another byte that is not 0.
    NotEmpty = 5,
    /// A slot record has an end off the map.
    Ends = 6,
    /// A link does not hold what the map call of its name answers.
    Link = 7,
    /// A side at the block's edge is open.
    Edge = 8,
}

impl OpenFault {
    // One cast for each kind of refusal: under a trait, or as `From`, each impl would write it again.
    /// The number of the refusal.
    pub fn number(self) -> u8
        ensures { result ≡ number_of self }
    {
        self as u8
    }
}

/// A map over the bytes of a map file, by their format.
pub trait MapFile<'a>: TwoWay + Drop {
    // the number with which bytes are refused, 0 for none
    ghost refusal: { List ℕ → ℕ };

    // the map that bytes hold, where they are not refused
    ghost held: { List ℕ → Graph };

    /// The least map of the format: one junction. It is a place to open a map into.
    fn least() -> Self
        ensures { (Self.Map.graph result).junctions ≡ 1 };

    /// Fills the place with the map that the bytes hold, or answers why they hold none.
    fn open(bytes: &'a [u8], place: &mut Self) -> Result<(), OpenFault>
        ensures number { answered result ≡ refusal bytes.now }
        ensures filled { is_ok result ≡ true → Self.Map.graph place.new ≡ held bytes.now }
        ensures kept { is_ok result ≡ false → place.new ≡ place.old };
}
