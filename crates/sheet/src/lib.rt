// Maps in the sheet format, read from borrowed bytes.
//
// A `Sheet` can only be had over bytes that the layout admits, so that its calls answer by the map's meaning. `open_sheet` takes any
// bytes: it fills a place that already holds a sheet, or answers the first fault and leaves the place as it was. It keeps no copy
// of the bytes, and says nothing of who may change them.
#![tactic(auto)]

ghost use Rattle.std.specs.Prelude.{◌≡◌, true, false, is_ok};
ghost use Rattle.maps.specs.Graph.{Lowest};
ghost use Rattle.formats.specs.Faults.{answered};
ghost use Rattle.sheet.specs.Layout.{street_at, sheet_graph};
ghost use Rattle.sheet.specs.Chains.{end_of, OnChain};
ghost use Rattle.sheet.specs.Refusal.{refusal, Sound};
ghost use Rattle.sheet.specs.Laws.{sheet_lawful};
ghost use Rattle.sheet.specs.Meaning.{Judged, RefusalsMean, Says};

pub mod records;

use formats::{MapFile, OpenFault};
use maps::{Map, TwoWay};
use records::{Chain, Records};

/// A map over the bytes of a sheet.
#[derive(Clone, Copy)]
pub struct Sheet<'a> {
    bytes: &'a [u8],
    ghost sound: { Sound bytes.now },
}

/// The least sheet: one junction, no slots. It is a place to open a sheet into.
pub fn least_sheet<'a>() -> Sheet<'a>
    ensures { ((sheet_graph result.bytes.now).junctions ≡ 1) × ((sheet_graph result.bytes.now).slots ≡ 0) }
{
    Sheet {
        bytes: b"\x53\x01\x00\x00\x00\x00\x00\x00",
    }
}

// Whether the layout admits the bytes, or the first fault in the order of the numbers.
fn check(bytes: &[u8]) -> Result<(), OpenFault>
    ensures { answered result ≡ refusal bytes.now }
{
    let records = Records::frame(bytes)?;
    if let Some(e) = records.first_bad_record() {
        return if records.tail(e) == 0 {
            Err(OpenFault::NotEmpty)
        } else {
            Err(OpenFault::Ends)
        };
    }
    if records.first_bad_link().is_some() {
        return Err(OpenFault::Link);
    }
    Ok(())
}

// Beside `MapFile::open`, since its contract says in the layout's own words what is admitted.
/// Fills the place with the sheet that the bytes hold, or answers why they hold none.
#[tactic(auto, using(crate::proofs::Judging::judged_as))]
pub fn open_sheet<'a>(bytes: &'a [u8], place: &mut Sheet<'a>) -> Result<(), OpenFault>
    ensures number { answered result ≡ refusal bytes.now }
    ensures judged { Judged bytes.now (answered result) }
    ensures filled { is_ok result ≡ true → place.new.bytes ≡ bytes.entry }
    ensures says { is_ok result ≡ true → Says bytes.now (sheet_graph place.new.bytes.now) }
    ensures kept { is_ok result ≡ false → place.new ≡ place.old }
{
    check(bytes)?;
    *place = Sheet { bytes };
    Ok(())
}

impl<'a> Sheet<'a> {
    // The records of the sheet.
    fn records(&self) -> Records<'a>
        ensures { result.bytes ≡ self.now.bytes }
    {
        Records { bytes: self.bytes }
    }

    // The first street on the chain of junction v.
    fn first_on(&self, chain: Chain, v: u16) -> Option<u16>
        ensures { Lowest (OnChain (sheet_graph self.now.bytes.now) chain v) 0 result }
    {
        let records = self.records();
        if v == 0 || v > records.junction_count() {
            return None;
        }
        records.first_link(chain, v)
    }

    // The street after e on its chain.
    fn next_on(&self, chain: Chain, e: u16) -> Option<u16>
        ensures { Lowest (OnChain (sheet_graph self.now.bytes.now) chain (end_of chain (street_at self.now.bytes.now e))) e result }
    {
        let records = self.records();
        if e == 0 || e > records.slot_count() {
            return None;
        }
        records.next_link(chain, e)
    }
}

impl<'a> Map for Sheet<'a> {
    ghost graph = { λ s. sheet_graph s.bytes.now };

    ghost lawful = { λ s. sheet_lawful s.bytes.now s.sound };

    fn junctions(&self) -> u16 {
        self.records().junction_count()
    }

    fn slots(&self) -> u16 {
        self.records().slot_count()
    }

    fn slot(&self, e: u16) -> Option<(u16, u16, u32)> {
        self.records().street(e)
    }

    fn first_leaving(&self, v: u16) -> Option<u16> {
        self.first_on(Chain::Leaving, v)
    }

    fn next_leaving(&self, e: u16) -> Option<u16> {
        self.next_on(Chain::Leaving, e)
    }
}

impl<'a> TwoWay for Sheet<'a> {
    fn first_entering(&self, v: u16) -> Option<u16> {
        self.first_on(Chain::Entering, v)
    }

    fn next_entering(&self, e: u16) -> Option<u16> {
        self.next_on(Chain::Entering, e)
    }
}

impl<'a> MapFile<'a> for Sheet<'a> {
    ghost refusal = { refusal };

    ghost held = { sheet_graph };

    fn least() -> Self {
        least_sheet()
    }

    fn open(bytes: &'a [u8], place: &mut Self) -> Result<(), OpenFault> {
        open_sheet(bytes, place)
    }
}

/// The theorem that the refusal numbers mean what the layout says: each is returned on its condition, and on no other.
pub fn sheet_refusals_mean() -> u8
    ensures mean { RefusalsMean }
    ensures zero { result ≡ 0 }
{
    0
}
