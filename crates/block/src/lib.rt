// Maps in the block format, a block of square cells read from borrowed bytes.
//
// A `Block` can only be had over bytes that the layout admits, so that its calls answer by the map's meaning. `open_block` takes any
// bytes: it fills a place that already holds a block, or answers the first fault and leaves the place as it was. It keeps no copy
// of the bytes, and says nothing of who may change them.
#![tactic(auto)]

ghost use Rattle.std.specs.Prelude.{◌≡◌, true, false, is_ok};
ghost use Rattle.maps.specs.Graph.{Leaves, Enters, Lowest};
ghost use Rattle.formats.specs.Faults.{answered};
ghost use Rattle.block.specs.Layout.{block_graph, least_bytes};
ghost use Rattle.block.specs.Refusal.{refusal, Sound};
ghost use Rattle.block.specs.Laws.{block_lawful};
ghost use Rattle.block.specs.Meaning.{Judged, RefusalsMean, Says};

pub mod cells;

use cells::{Cells, place_of};
use formats::{MapFile, OpenFault};
use maps::{Map, TwoWay};

/// A map over the bytes of a block.
#[derive(Clone, Copy)]
pub struct Block<'a> {
    bytes: &'a [u8],
    ghost sound: { Sound bytes.now },
}

/// The least block: one cell with no open side. It is a place to open a block into.
pub fn least_block<'a>() -> Block<'a>
    ensures counts { ((block_graph result.bytes.now).junctions ≡ 1) × ((block_graph result.bytes.now).slots ≡ 4) }
    ensures bytes { result.bytes.now ≡ least_bytes }
{
    Block {
        bytes: b"\x47\x01\x01\x00",
    }
}

// Whether the layout admits the bytes, or the first fault in the order of the numbers.
fn check(bytes: &[u8]) -> Result<(), OpenFault>
    ensures { answered result ≡ refusal bytes.now }
{
    if Cells::read(bytes)?.opens_out() {
        return Err(OpenFault::Edge);
    }
    Ok(())
}

// Beside `MapFile::open`, since its contract says in the layout's own words what is admitted.
/// Fills the place with the block that the bytes hold, or answers why they hold none.
pub fn open_block<'a>(bytes: &'a [u8], place: &mut Block<'a>) -> Result<(), OpenFault>
    ensures number { answered result ≡ refusal bytes.now }
    ensures judged { Judged bytes.now (answered result) }
    ensures filled { is_ok result ≡ true → place.new.bytes ≡ bytes.entry }
    ensures says { is_ok result ≡ true → Says bytes.now (block_graph place.new.bytes.now) }
    ensures kept { is_ok result ≡ false → place.new ≡ place.old }
{
    check(bytes)?;
    *place = Block { bytes };
    Ok(())
}

impl<'a> Block<'a> {
    fn cells(&self) -> Cells<'a>
        ensures { result.bytes ≡ self.now.bytes }
    {
        Cells { bytes: self.bytes }
    }

    // The lowest street above `after` whose tail is v: one of the four slots of cell v.
    fn lowest_leaving(&self, v: u16, after: u16) -> Option<u16>
        ensures { Lowest (Leaves (block_graph self.now.bytes.now) v) after result }
    {
        let cells = self.cells();
        if v == 0 || v > cells.count() {
            return None;
        }
        let last = 4 * v;
        let before = after.max(last - 4);
        if before >= last {
            return None;
        }
        (before + 1..last + 1).find(|&e| cells.is_filled(e))
    }

    // The lowest street above `after` whose head is v.
    fn lowest_entering(&self, v: u16, after: u16) -> Option<u16>
        ensures { Lowest (Enters (block_graph self.now.bytes.now) v) after result }
    {
        let last = self.slots();
        if after >= last {
            return None;
        }
        // The range ends before a number: one that holds its end takes longer to go over.
        (after + 1..last + 1).find(|&e| self.slot(e).is_some_and(|(_, head, _)| head == v))
    }
}

impl<'a> Map for Block<'a> {
    ghost graph = { λ s. block_graph s.bytes.now };

    ghost lawful = { λ s. block_lawful s.bytes.now s.sound };

    fn junctions(&self) -> u16 {
        self.cells().count()
    }

    fn slots(&self) -> u16 {
        4 * self.cells().count()
    }

    fn slot(&self, e: u16) -> Option<(u16, u16, u32)> {
        let cells = self.cells();
        if !cells.is_filled(e) {
            return None;
        }
        let (tail, side) = place_of(e);
        let head = cells.beside(tail, side);
        Some((tail, head, 1 + u32::from(cells.cell(head) / 16)))
    }

    fn first_leaving(&self, v: u16) -> Option<u16> {
        self.lowest_leaving(v, 0)
    }

    fn next_leaving(&self, e: u16) -> Option<u16> {
        let (tail, _, _) = self.slot(e)?;
        self.lowest_leaving(tail, e)
    }
}

impl<'a> TwoWay for Block<'a> {
    fn first_entering(&self, v: u16) -> Option<u16> {
        self.lowest_entering(v, 0)
    }

    fn next_entering(&self, e: u16) -> Option<u16> {
        let (_, head, _) = self.slot(e)?;
        self.lowest_entering(head, e)
    }
}

impl<'a> MapFile<'a> for Block<'a> {
    ghost refusal = { refusal };

    ghost held = { block_graph };

    fn least() -> Self {
        least_block()
    }

    fn open(bytes: &'a [u8], place: &mut Self) -> Result<(), OpenFault> {
        open_block(bytes, place)
    }
}

/// The theorem that the refusal numbers mean what the layout says: each is returned on its condition, and on no other.
pub fn block_refusals_mean() -> u8
    ensures mean { RefusalsMean }
    ensures zero { result ≡ 0 }
{
    0
}
