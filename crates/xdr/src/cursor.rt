//! Reading items from the front of bytes.

ghost use Rattle.std.specs.Prelude.{◌≡◌, ◌≤◌, ◌==◌, true, length, IfOk};
ghost use Rattle.std.specs.List.{list_all, list_any};
ghost use Rattle.xdr.specs.Shape.{Word, Hyper, Boolean, Choice, Fixed, Opaque};
ghost use Rattle.xdr.specs.Reading.{Takes, all_read, length_at, read};

use crate::fault::Fault;
use crate::put::padding_of;
use byteorder::{BigEndian, ByteOrder};
use std::marker::Model;

/// The bytes that are still to be read. A call that answers a fault takes none of them.
#[derive(Drop)]
pub struct Cursor<'a> {
    rest: &'a [u8],
}

impl<'a> Model for Cursor<'a> {
    ghost use Rattle.std.specs.Prelude.{List, ℕ};

    ghost Value = { List ℕ };

    ghost view = { λ c. c.rest.now };
}

fn is_zero(bytes: &[u8]) -> bool
    ensures { result ≡ list_all (λ b. b == 0) bytes.now }
{
    bytes.iter().all(|b| *b == 0)
}

fn is_among(numbers: &[u32], number: u32) -> bool
    ensures { result ≡ list_any (λ m. m == number) numbers.now }
{
    numbers.iter().any(|m| *m == number)
}

impl<'a> Cursor<'a> {
    /// A cursor before the first byte.
    pub fn new(bytes: &'a [u8]) -> Cursor<'a>
        ensures { result ≡ bytes.now }
    {
        Cursor { rest: bytes }
    }

    /// The bytes that are still to be read.
    pub fn rest(&self) -> &'a [u8]
        ensures { result.now ≡ self.now }
    {
        self.rest
    }

    /// An unsigned integer (RFC 4506, section 4.2).
    pub fn u32(&mut self) -> Result<u32, Fault>
        ensures { Takes (λ x. x) result (read Word self.old) self.old self.new }
    {
        if self.rest.len() < 4 {
            return Err(Fault::Short);
        }
        let (front, rest) = self.rest.split_at(4);
        self.rest = rest;
        Ok(BigEndian::read_u32(front))
    }

    /// An unsigned hyper integer (RFC 4506, section 4.5).
    pub fn u64(&mut self) -> Result<u64, Fault>
        ensures { Takes (λ x. x) result (read Hyper self.old) self.old self.new }
    {
        if self.rest.len() < 8 {
            return Err(Fault::Short);
        }
        let (front, rest) = self.rest.split_at(8);
        self.rest = rest;
        Ok(BigEndian::read_u64(front))
    }

    /// A boolean (RFC 4506, section 4.4).
    #[tactic(auto, unfolding(crate::specs::Reading::boolean_at))]
    pub fn boolean(&mut self) -> Result<bool, Fault>
        ensures { Takes (λ x. x) result (read Boolean self.old) self.old self.new }
    {
        let before = self.rest;
        match self.u32()? {
            0 => Ok(false),
            1 => Ok(true),
            _ => {
                self.rest = before;
                Err(Fault::BadBool)
            }
        }
    }

    /// A value of an enumeration (RFC 4506, section 4.3), one of `numbers`.
    #[tactic(auto, unfolding(crate::specs::Reading::choice_at))]
    pub fn choice(&mut self, numbers: &[u32]) -> Result<u32, Fault>
        ensures takes { Takes (λ x. x) result
            (read (Choice numbers.now) self.old) self.old self.new }
        ensures among { IfOk result (λ n. list_any (λ m. m == n) numbers.now ≡ true) }
    {
        let before = self.rest;
        let number = self.u32()?;
        if !is_among(numbers, number) {
            self.rest = before;
            return Err(Fault::BadEnum);
        }
        Ok(number)
    }

    /// This many bytes, and their padding (RFC 4506, section 4.9).
    #[tactic(auto, unfolding(crate::specs::Reading::fixed_at))]
    pub fn fixed(&mut self, size: u32) -> Result<&'a [u8], Fault>
        ensures takes { Takes (λ x. x.now) result (read (Fixed size) self.old) self.old self.new }
        ensures size { IfOk result (λ x. length x.now ≡ size) }
    {
        let size = size as usize;
        let padding = padding_of(size);
        if self.rest.len() < size + padding {
            return Err(Fault::Short);
        }
        let (bytes, after) = self.rest.split_at(size);
        let (zeros, rest) = after.split_at(padding);
        if !is_zero(zeros) {
            return Err(Fault::BadPad);
        }
        self.rest = rest;
        Ok(bytes)
    }

    /// The length of what follows, at most `most`.
    #[tactic(auto, unfolding(crate::specs::Reading::length_at))]
    pub fn length(&mut self, most: u32) -> Result<u32, Fault>
        ensures takes { Takes (λ x. x) result (length_at most self.old) self.old self.new }
        ensures most { IfOk result (λ n. n ≤ most) }
    {
        let before = self.rest;
        let size = self.u32()?;
        if size > most {
            self.rest = before;
            return Err(Fault::TooLong);
        }
        Ok(size)
    }

    /// A length of at most `most`, that many bytes, and their padding (RFC 4506, section 4.10).
    #[tactic(auto, unfolding(crate::specs::Reading::opaque_at))]
    pub fn opaque(&mut self, most: u32) -> Result<&'a [u8], Fault>
        ensures takes { Takes (λ x. x.now) result (read (Opaque most) self.old) self.old self.new }
        ensures most { IfOk result (λ x. length x.now ≤ most) }
    {
        let before = self.rest;
        let size = self.length(most)?;
        match self.fixed(size) {
            Ok(bytes) => Ok(bytes),
            Err(fault) => {
                self.rest = before;
                Err(fault)
            }
        }
    }

    /// Whether every byte was read; `LeftOver` where not.
    pub fn end(&self) -> Result<(), Fault>
        ensures { result ≡ all_read self.now }
    {
        if self.rest.is_empty() {
            Ok(())
        } else {
            Err(Fault::LeftOver)
        }
    }
}
