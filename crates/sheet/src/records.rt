// The records of a sheet, read from its bytes, and the checks of an opening on them.
ghost use Rattle.std.specs.Prelude.{◌≡◌, ◌==◌, ◌+◌, ◌<◌, ◌≤◌, length, Some, IfOk, IfErr, IfSome};
ghost use Rattle.std.specs.List.{list_all};
ghost use Rattle.formats.specs.Bytes.{two_at, four_at};
ghost use Rattle.formats.specs.Faults.{number_of};
ghost use Rattle.formats.specs.Scan.{optional};
ghost use Rattle.sheet.specs.Layout.{junction_count, slot_count, slot_record, HasRecord, tail_at, street_at, sheet_graph};
ghost use Rattle.sheet.specs.Chains.{link_place, first_link, next_link, end_of, lowest_on};
ghost use Rattle.sheet.specs.Meaning.{Frame};
ghost use Rattle.sheet.specs.Refusal.{wrong_record, bad_record, wrong_link, wrong_links, bad_link, refusal, Framed};

use formats::OpenFault;

/// Which of a junction's two chains of streets, with the place of its link among the links of a record.
#[derive(Clone, Copy)]
pub enum Chain {
    /// The streets that leave the junction.
    Leaving = 0,
    /// The streets that enter it.
    Entering = 2,
}

impl Chain {
    // Where the chain's link stands among the links of a record.
    fn link_place(self) -> usize
        ensures { result ≡ link_place self }
    {
        self as usize
    }

    // The end of a street at which the chain runs.
    fn end_of(self, street: (u16, u16, u32)) -> u16
        ensures { result ≡ end_of self (Some street) }
    {
        match self {
            Chain::Leaving => street.0,
            Chain::Entering => street.1,
        }
    }
}

// Two functions and not one over a size: `from_le_bytes` is a method of each type of number, and of no trait.

// The number that two bytes hold, the low byte first.
fn read_two(bytes: &[u8], at: usize) -> u16
    requires { at + 2 ≤ length bytes.now }
    ensures { result ≡ two_at bytes.now at }
{
    u16::from_le_bytes([bytes[at], bytes[at + 1]])
}

// The number that four bytes hold, the low byte first.
fn read_four(bytes: &[u8], at: usize) -> u32
    requires { at + 4 ≤ length bytes.now }
    ensures { result ≡ four_at bytes.now at }
{
    u32::from_le_bytes([bytes[at], bytes[at + 1], bytes[at + 2], bytes[at + 3]])
}

// Whether each byte is 0.
fn is_blank(bytes: &[u8]) -> bool
    ensures { result ≡ list_all (λ b. b == 0) bytes.now }
{
    bytes.iter().all(|b| *b == 0)
}

// A junction or a slot as an answer: in the file 0 stands for none.
fn some_number(number: u16) -> Option<u16>
    ensures { result ≡ optional number }
{
    (number > 0).then_some(number)
}

// The records of bytes that have a sheet's head and just the length that it says.
#[derive(Clone, Copy)]
pub(crate) struct Records<'a> {
    pub(crate) bytes: &'a [u8],
    ghost framed: { Framed bytes.now },
}

impl<'a> Records<'a> {
    // The records of the bytes, or the first fault of their head or length.
    pub(crate) fn frame(bytes: &'a [u8]) -> Result<Self, OpenFault>
        ensures framed { IfOk result (λ r. (r.bytes ≡ bytes.entry) × Frame bytes.now) }
        ensures refused { IfErr result (λ f. number_of f ≡ refusal bytes.now) }
    {
        if bytes.len() < 4 {
            return Err(OpenFault::Short);
        }
        if bytes[0] != 0x53 {
            return Err(OpenFault::FirstByte);
        }
        let n = usize::from(bytes[1]);
        let m = usize::from(read_two(bytes, 2));
        if n == 0 || n > 128 || m > 512 {
            return Err(OpenFault::Range);
        }
        if bytes.len() != 4 + 4 * n + 10 * m {
            return Err(OpenFault::Size);
        }
        Ok(Records { bytes })
    }

    // How many junction records the head says.
    pub(crate) fn junction_count(&self) -> u16
        ensures { result ≡ junction_count self.now.bytes.now }
    {
        u16::from(self.bytes[1])
    }

    // How many slot records the head says.
    pub(crate) fn slot_count(&self) -> u16
        ensures { result ≡ slot_count self.now.bytes.now }
    {
        read_two(self.bytes, 2)
    }

    // Where slot record e begins.
    fn slot_record(&self, e: u16) -> usize
        requires { 0 < e }
        ensures { result ≡ slot_record self.now.bytes.now e }
    {
        4 + 4 * usize::from(self.bytes[1]) + 10 * (usize::from(e) - 1)
    }

    // The tail in slot record e, 0 in an empty one. Whoever asks for record e has found it: a type for such a number would only wrap it.
    pub(crate) fn tail(&self, e: u16) -> u8
        requires { HasRecord self.now.bytes.now e }
        ensures { result ≡ tail_at self.now.bytes.now e }
    {
        self.bytes[self.slot_record(e)]
    }

    // What slot e holds.
    pub(crate) fn street(&self, e: u16) -> Option<(u16, u16, u32)>
        ensures { result ≡ street_at self.now.bytes.now e }
    {
        if e == 0 || e > self.slot_count() {
            return None;
        }
        self.record_street(e)
    }

    // What slot record e holds. The opening of a sheet reads records over and over, and does not ask each time whether they are there.
    fn record_street(&self, e: u16) -> Option<(u16, u16, u32)>
        requires { HasRecord self.now.bytes.now e }
        ensures { result ≡ street_at self.now.bytes.now e }
    {
        let at = self.slot_record(e);
        if self.bytes[at] == 0 {
            return None;
        }
        Some((
            u16::from(self.bytes[at]),
            u16::from(self.bytes[at + 1]),
            read_four(self.bytes, at + 2),
        ))
    }

    // The junction at which the chain of slot record e runs, none where it is empty.
    fn end(&self, chain: Chain, e: u16) -> Option<u16>
        requires { HasRecord self.now.bytes.now e }
        ensures { result ≡ optional (end_of chain (street_at self.now.bytes.now e)) }
    {
        let street = self.record_street(e)?;
        some_number(chain.end_of(street))
    }

    // The link in the record of junction v.
    pub(crate) fn first_link(&self, chain: Chain, v: u16) -> Option<u16>
        requires { (0 < v) × (v ≤ junction_count self.now.bytes.now) }
        ensures { result ≡ optional (first_link self.now.bytes.now chain v) }
    {
        some_number(read_two(
            self.bytes,
            4 + 4 * (usize::from(v) - 1) + chain.link_place(),
        ))
    }

    // The link in the record of slot e.
    pub(crate) fn next_link(&self, chain: Chain, e: u16) -> Option<u16>
        requires { HasRecord self.now.bytes.now e }
        ensures { result ≡ optional (next_link self.now.bytes.now chain e) }
    {
        some_number(read_two(self.bytes, self.slot_record(e) + 6 + chain.link_place()))
    }

    // The lowest street above `after` on the chain of junction v.
    fn lowest_on(&self, chain: Chain, v: u16, after: u16) -> Option<u16>
        requires { after ≤ 512 }
        ensures { result ≡ optional (lowest_on (sheet_graph self.now.bytes.now) chain v after) }
    {
        // The range ends before a number: one that holds its end takes longer to go over.
        (after + 1..self.slot_count() + 1).find(|&k| self.end(chain, k) == Some(v))
    }

    // The next street after e on its chain: what its link should hold.
    fn lowest_after(&self, chain: Chain, e: u16) -> Option<u16>
        requires { HasRecord self.now.bytes.now e }
        ensures { result ≡ optional (lowest_on (sheet_graph self.now.bytes.now) chain (end_of chain (street_at self.now.bytes.now e)) e) }
    {
        let v = self.end(chain, e)?;
        self.lowest_on(chain, v, e)
    }

    // Whether slot record e is at fault.
    #[tactic(auto, unfolding(crate::specs::Refusal::wrong_record))]
    fn is_wrong_record(&self, e: u16) -> bool
        requires { HasRecord self.now.bytes.now e }
        ensures { result ≡ wrong_record self.now.bytes.now e }
    {
        let at = self.slot_record(e);
        let tail = self.bytes[at];
        let head = self.bytes[at + 1];
        let n = self.bytes[1];
        if tail == 0 {
            !is_blank(&self.bytes[at..at + 10])
        } else {
            tail > n || head == 0 || head > n
        }
    }

    // Whether the link of a chain in record r is not as defined: junctions count from 1 to n, slots go on from n + 1.
    #[tactic(auto, using(crate::proofs::Links::equal_optional), unfolding(crate::specs::Refusal::wrong_link))]
    fn is_wrong_link(&self, chain: Chain, r: u16) -> bool
        requires { (0 < r) × (r ≤ junction_count self.now.bytes.now + slot_count self.now.bytes.now) }
        ensures { result ≡ wrong_link self.now.bytes.now chain r }
    {
        let n = self.junction_count();
        if r <= n {
            self.first_link(chain, r) != self.lowest_on(chain, r, 0)
        } else {
            let e = r - n;
            self.next_link(chain, e) != self.lowest_after(chain, e)
        }
    }

    // Whether one of the two links of record r is wrong.
    fn has_wrong_link(&self, r: u16) -> bool
        requires { (0 < r) × (r ≤ junction_count self.now.bytes.now + slot_count self.now.bytes.now) }
        ensures { result ≡ wrong_links self.now.bytes.now r }
    {
        self.is_wrong_link(Chain::Leaving, r) || self.is_wrong_link(Chain::Entering, r)
    }

    // The lowest slot record at fault.
    pub(crate) fn first_bad_record(&self) -> Option<u16>
        ensures value { result ≡ optional (bad_record self.now.bytes.now) }
        ensures within { IfSome result (HasRecord self.now.bytes.now) }
    {
        (1..self.slot_count() + 1).find(|&e| self.is_wrong_record(e))
    }

    // The lowest record with a wrong link.
    pub(crate) fn first_bad_link(&self) -> Option<u16>
        ensures { result ≡ optional (bad_link self.now.bytes.now) }
    {
        let last = self.junction_count() + self.slot_count();
        (1..last + 1).find(|&r| self.has_wrong_link(r))
    }
}
