//! The words of a line: separated by one space each.

ghost use Rattle.std.specs.Prelude.{◌≡◌, ◌+◌, ◌<◌, IfSome};
ghost use Rattle.std.specs.Fmt.{decimal};

use crate::script::line::Unread;
use nfs_values::{ConnectionNumber, VolumeNumber, WorkerNumber};
use std::alloc::Global;

/// The words of a line that are still to be read; `None` past the last.
#[derive(Drop)]
pub(crate) struct Words<'a> {
    rest: Option<&'a [u8]>,
}

impl<'a> Words<'a> {
    /// The words of a line, its line feed left off.
    pub(crate) fn new(line: &'a [u8]) -> Words<'a> {
        Words { rest: Some(line) }
    }

    /// The next word.
    pub(crate) fn word(&mut self) -> Result<&'a [u8], Unread> {
        let rest = self.rest.ok_or(Unread::Form)?;
        let Some(end) = rest.iter().position(|b| *b == b' ') else {
            self.rest = None;
            return Ok(rest);
        };
        let (word, after) = rest.split_at(end);
        self.rest = Some(&after[1..]);
        Ok(word)
    }

    /// The next word, as a decimal number without leading zeros.
    fn number(&mut self) -> Result<u32, Unread> {
        decimal_value(self.word()?).ok_or(Unread::Form)
    }

    /// The next words, as such numbers.
    pub(crate) fn numbers<const N: usize>(&mut self) -> Result<[u32; N], Unread> {
        let mut numbers = [0; N];
        for number in &mut numbers {
            *number = self.number()?;
        }
        Ok(numbers)
    }

    /// The next word, as the number of a connection, by the same rule.
    pub(crate) fn connection(&mut self) -> Result<ConnectionNumber, Unread> {
        Ok(ConnectionNumber(self.number()? as usize))
    }

    /// The next word, as the number of a worker, by the same rule.
    pub(crate) fn worker(&mut self) -> Result<WorkerNumber, Unread> {
        Ok(WorkerNumber(self.number()? as usize))
    }

    /// The next word, as a place among the messages that wait, by the same rule.
    pub(crate) fn place(&mut self) -> Result<usize, Unread> {
        Ok(self.number()? as usize)
    }

    /// The next word, as the number of a volume, by the same rule.
    pub(crate) fn volume(&mut self) -> Result<VolumeNumber, Unread> {
        Ok(VolumeNumber(self.number()?))
    }

    /// The next word, as bytes in lower-case hex; `-` stands for none.
    pub(crate) fn bytes(&mut self, alloc: Global) -> Result<Vec<u8>, Unread> {
        match self.word()? {
            b"-" => Ok(Vec::new(alloc)),
            word => hex_bytes(alloc, word),
        }
    }

    /// The next word, as eight bytes in lower-case hex.
    pub(crate) fn verifier(&mut self) -> Result<[u8; 8], Unread> {
        let word = self.word()?;
        if !is_lower_hex(word) {
            return Err(Unread::Form);
        }
        let mut verifier = [0; 8];
        match hex::decode_to_slice(word, &mut verifier) {
            Ok(()) => Ok(verifier),
            Err(_) => Err(Unread::Form),
        }
    }

    /// Whether no word is left.
    pub(crate) fn is_ended(&self) -> bool {
        self.rest.is_none()
    }

    /// That no word is left.
    pub(crate) fn end(&self) -> Result<(), Unread> {
        if self.is_ended() {
            Ok(())
        } else {
            Err(Unread::Form)
        }
    }
}

/// The number that decimal digits stand for: no sign, no leading zero, below 2^32.
fn decimal_value(digits: &[u8]) -> Option<u32>
    ensures { IfSome result (λ number. digits.now ≡ decimal number) }
{
    let (first, others) = digits.split_first()?;
    let mut number = digit(*first)?;
    for next in others {
        if number == 0 {
            return None;
        }
        number = number.checked_mul(10)?.checked_add(digit(*next)?)?;
    }
    Some(number)
}

/// The number of a decimal digit.
fn digit(byte: u8) -> Option<u32>
    ensures { IfSome result (λ number. (number < 10) × (byte ≡ 48 + number)) }
{
    match byte {
        b'0'..=b'9' => Some(u32::from(byte - b'0')),
        _ => None,
    }
}

fn is_lower_hex(word: &[u8]) -> bool {
    word.iter().all(|b| matches!(*b, b'0'..=b'9' | b'a'..=b'f'))
}

/// The bytes that hex digits stand for, of which there are some, and an even count.
fn hex_bytes(alloc: Global, word: &[u8]) -> Result<Vec<u8>, Unread> {
    if word.is_empty() || !is_lower_hex(word) {
        return Err(Unread::Form);
    }
    match hex::decode(alloc, word) {
        Ok(bytes) => Ok(bytes),
        Err(hex::FromHexError::OutOfMemory) => Err(Unread::NoMemory),
        Err(_) => Err(Unread::Form),
    }
}
