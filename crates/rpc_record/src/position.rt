ghost use Rattle.std.specs.Prelude.{◌≡◌, ◌↔◌, ◌+◌, ◌-◌, ◌<◌, ◌≤◌, [], List, ℕ, length, true};
ghost use Rattle.rpc_record.specs.Machine.{InHeader, scan, after, after_fragment, after_header};
ghost use Rattle.rpc_record.specs.Position.{state, next_of, IsPosition, Turns, joined_by};
ghost use Rattle.rpc_record.specs.Position.{after_data};
ghost use Rattle.rpc_record.specs.Position.{walk_to};

use byteorder::{BigEndian, ByteOrder};

/// The most bytes of a record: our profile, as RFC 5531 sets no limit.
pub const RECORD_LIMIT: usize = 131_072;

/// The bit of a fragment's header that marks the record's last fragment (RFC 5531, section 11).
pub(crate) const LAST_FRAGMENT: u32 = 0x8000_0000;

/// Where in a record a stream stands, without the record's data.
#[derive(Clone, Copy)]
pub(crate) struct Position {
    /// How many bytes of data have been joined.
    pub(crate) joined: usize,
    /// What has come of a header.
    pub(crate) header: [u8; 4],
    /// How many bytes of it have come.
    pub(crate) count: usize,
    /// How many bytes of the fragment are missing: none in a header.
    pub(crate) left: usize,
    /// Whether the fragment is the record's last.
    pub(crate) last: bool,
}

/// What bytes led to.
#[derive(Clone, Copy)]
pub(crate) enum Turn {
    /// All were taken, and no record is whole.
    Goes,
    /// They end a record.
    Ends,
    /// They end in a header that brings the record above the limit.
    Faults,
}

impl Position {
    /// Before a record's first byte.
    pub(crate) const START: Position = Position {
        joined: 0,
        header: [0; 4],
        count: 0,
        left: 0,
        last: false,
    };

    /// Whether it is before a header's first byte.
    pub(crate) fn is_start(self) -> bool
        requires { IsPosition self }
        ensures { (joined : List ℕ) → result ≡ true ↔ state joined self ≡ InHeader joined [] }
    {
        self.left == 0 && self.count == 0
    }

    /// A fragment's end.
    fn end_fragment(&mut self, last: bool) -> Turn
        requires { IsPosition self.old }
        ensures next { (joined : List ℕ)
            → next_of result joined self.new ≡ after_fragment joined last }
        ensures joined { self.new.joined ≡ self.old.joined }
        ensures sound { IsPosition self.new }
    {
        self.count = 0;
        self.left = 0;
        if last { Turn::Ends } else { Turn::Goes }
    }

    /// A header's end.
    fn end_header(&mut self, number: u32) -> Turn
        requires { IsPosition self.old }
        ensures next { (joined : List ℕ) → length joined ≡ self.old.joined
            → next_of result joined self.new ≡ after_header joined number }
        ensures joined { self.new.joined ≡ self.old.joined }
        ensures sound { IsPosition self.new }
    {
        let size = (number % LAST_FRAGMENT) as usize;
        let last = LAST_FRAGMENT <= number;
        if RECORD_LIMIT < self.joined + size {
            return Turn::Faults;
        }
        if size == 0 {
            return self.end_fragment(last);
        }
        self.left = size;
        self.last = last;
        Turn::Goes
    }

    /// One byte of a header.
    fn take_header_byte(&mut self, byte: u8) -> Turn
        requires in_header { self.old.left ≡ 0 }
        requires sound { IsPosition self.old }
        ensures next { (joined : List ℕ) → length joined ≡ self.old.joined
            → next_of result joined self.new ≡ after (state joined self.old) byte }
        ensures joined { self.new.joined ≡ self.old.joined }
        ensures sound { IsPosition self.new }
    {
        self.header[self.count] = byte;
        if self.count < 3 {
            self.count += 1;
            return Turn::Goes;
        }
        let number = BigEndian::read_u32(&self.header);
        self.end_header(number)
    }

    /// Data of the fragment, of which this much is missing at least.
    fn take_data(&mut self, size: usize) -> Turn
        requires within { size ≤ self.old.left }
        requires sound { IsPosition self.old }
        ensures next { (joined : List ℕ) → next_of result joined self.new
            ≡ after_data joined (self.old.left - size) self.old.last }
        ensures joined { self.new.joined ≡ self.old.joined + size }
        ensures sound { IsPosition self.new }
    {
        self.left -= size;
        self.joined += size;
        if self.left == 0 {
            let last = self.last;
            return self.end_fragment(last);
        }
        Turn::Goes
    }

    /// A header, at once where all of it is there and else a byte of it, or as much of a
    /// fragment's data as is there.
    pub(crate) fn take(&mut self, bytes: &[u8]) -> (usize, Turn)
        requires some { 0 < length bytes.now }
        requires sound { IsPosition self.old }
        ensures some { 0 < result.0 }
        ensures within { result.0 ≤ length bytes.now }
        ensures turns { Turns self.old bytes.now result.0 result.1 self.new }
        ensures joined { self.new.joined ≡ joined_by self.old bytes.now }
        ensures sound { IsPosition self.new }
    {
        if self.left == 0 {
            if self.count == 0 && 4 <= bytes.len() {
                let number = BigEndian::read_u32(bytes);
                return (4, self.end_header(number));
            }
            return (1, self.take_header_byte(bytes[0]));
        }
        let size = self.left.min(bytes.len());
        (size, self.take_data(size))
    }

    /// How many bytes go up to the end of a record or a fault, and which of these stands there.
    pub(crate) fn walk(mut self, bytes: &[u8]) -> (usize, Turn)
        requires { IsPosition self }
        ensures { (joined : List ℕ) → length joined ≡ self.joined
            → result ≡ walk_to bytes.now (scan 0 (state joined self) bytes.now) }
    {
        let mut taken = 0;
        while taken < bytes.len() {
            let (size, turn) = self.take(&bytes[taken..]);
            taken += size;
            match turn {
                Turn::Goes => {}
                Turn::Ends => return (taken, Turn::Ends),
                Turn::Faults => return (taken, Turn::Faults),
            }
        }
        (taken, Turn::Goes)
    }
}
