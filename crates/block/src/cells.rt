// The cells of a block and their sides, read from its bytes.
ghost use Rattle.std.specs.Prelude.{◌≡◌, ◌*◌, ◌<◌, ◌≤◌, true, not, ◌==◌, IfOk, IfErr};
ghost use Rattle.formats.specs.Faults.{number_of};
ghost use Rattle.block.specs.Layout.{width, height, cell_count, cell_at, bit_of, cell_of, side_of, opened, inside, neighbour, filled};
ghost use Rattle.block.specs.Refusal.{leads_out, bad_side, refusal};
ghost use Rattle.block.specs.Meaning.{Frame};

use formats::OpenFault;

/// A side of a cell, by its place among the slots of the cell.
#[derive(Clone, Copy)]
pub enum Side {
    North = 0,
    East = 1,
    South = 2,
    West = 3,
}

impl Side {
    // The bit of the cell's byte that opens the side.
    fn bit(self) -> u8
        ensures { result ≡ bit_of self }
    {
        1 << self as u8
    }
}

// The cell of slot e, and its side.
pub(crate) fn place_of(e: u16) -> (u16, Side)
    requires { 0 < e }
    ensures cell { result.0 ≡ cell_of e }
    ensures side { result.1 ≡ side_of e }
{
    let side = match (e - 1) % 4 {
        0 => Side::North,
        1 => Side::East,
        2 => Side::South,
        _ => Side::West,
    };
    ((e - 1) / 4 + 1, side)
}

// Bytes with a block's head, and just the length that it says.
#[derive(Clone, Copy)]
pub(crate) struct Cells<'a> {
    pub(crate) bytes: &'a [u8],
    ghost framed: { Frame bytes.now },
}

impl<'a> Cells<'a> {
    // The cells that the bytes hold, or the first fault of their head or their length.
    pub(crate) fn read(bytes: &'a [u8]) -> Result<Cells<'a>, OpenFault>
        ensures cells { IfOk result (λ cells. cells.bytes.now ≡ bytes.now) }
        ensures fault { IfErr result (λ fault. number_of fault ≡ refusal bytes.now) }
    {
        if bytes.len() < 3 {
            return Err(OpenFault::Short);
        }
        if bytes[0] != 0x47 {
            return Err(OpenFault::FirstByte);
        }
        let count = usize::from(bytes[1]) * usize::from(bytes[2]);
        if count == 0 || count > 128 {
            return Err(OpenFault::Range);
        }
        if bytes.len() != 3 + count {
            return Err(OpenFault::Size);
        }
        Ok(Cells { bytes })
    }

    fn width(&self) -> u16
        ensures { result ≡ width self.now.bytes.now }
    {
        u16::from(self.bytes[1])
    }

    fn height(&self) -> u16
        ensures { result ≡ height self.now.bytes.now }
    {
        u16::from(self.bytes[2])
    }

    // How many cells there are.
    pub(crate) fn count(&self) -> u16
        ensures { result ≡ cell_count self.now.bytes.now }
    {
        self.width() * self.height()
    }

    // The byte of cell j.
    pub(crate) fn cell(&self, j: u16) -> u8
        requires { j ≤ cell_count self.now.bytes.now }
        ensures { result ≡ cell_at self.now.bytes.now j }
    {
        self.bytes[usize::from(j) + 2]
    }

    // Whether the side of cell j is open.
    fn is_open(&self, j: u16, side: Side) -> bool
        requires { j ≤ cell_count self.now.bytes.now }
        ensures { result ≡ opened self.now.bytes.now j side }
    {
        self.cell(j) & side.bit() != 0
    }

    // Whether the neighbour of cell j at the side lies in the block.
    fn is_inside(&self, j: u16, side: Side) -> bool
        requires { (0 < j) × (j ≤ cell_count self.now.bytes.now) }
        ensures { result ≡ inside self.now.bytes.now j side }
    {
        let width = self.width();
        let row = (j - 1) / width;
        let column = (j - 1) % width;
        match side {
            Side::North => row > 0,
            Side::East => column + 1 < width,
            Side::South => row + 1 < self.height(),
            Side::West => column > 0,
        }
    }

    // The neighbour of cell j at the side, which lies in the block: it is read with each street, and is not looked for again.
    pub(crate) fn beside(&self, j: u16, side: Side) -> u16
        requires { (0 < j) × ((j ≤ cell_count self.now.bytes.now) × (inside self.now.bytes.now j side ≡ true)) }
        ensures value { result ≡ neighbour self.now.bytes.now j side }
        ensures within { result ≤ cell_count self.now.bytes.now }
    {
        match side {
            Side::North => j - self.width(),
            Side::East => j + 1,
            Side::South => j + self.width(),
            Side::West => j - 1,
        }
    }

    // Whether slot e holds a street.
    pub(crate) fn is_filled(&self, e: u16) -> bool
        ensures { result ≡ filled self.now.bytes.now e }
    {
        if e == 0 || e > 4 * self.count() {
            return false;
        }
        let (j, side) = place_of(e);
        self.is_open(j, side)
    }

    // Whether the side of slot e is open and leads out of the block.
    fn leads_out(&self, e: u16) -> bool
        requires { (0 < e) × (e ≤ 4 * cell_count self.now.bytes.now) }
        ensures { result ≡ leads_out self.now.bytes.now e }
    {
        let (j, side) = place_of(e);
        self.is_open(j, side) && !self.is_inside(j, side)
    }

    // Whether an open side leads out of the block.
    pub(crate) fn opens_out(&self) -> bool
        ensures { result ≡ not (bad_side self.now.bytes.now == 0) }
    {
        (1..4 * self.count() + 1).any(|e| self.leads_out(e))
    }
}
