//! Devices that don't wait.

ghost use Rattle.std.specs.Prelude.{◌≡◌, MatchResult, List, ℕ, Option, None, length};
ghost use Rattle.std.specs.IoError.{error_kind};
ghost use Rattle.std.specs.Io.KnownBytes.{Keeps};
ghost use Rattle.connections.specs.Incoming.{Incoming, Untold, GivesNone};
ghost use Rattle.connections.specs.declared.told.DeviceCall.{DeviceCall};
ghost use Rattle.connections.specs.declared.told.DeviceCall.TheVariants.{Read, Write};
ghost use Rattle.connections.specs.Told.{MovesAtMost, HasGiven, HasGot, IsAsked, told_of};
ghost use Rattle.connections.specs.declared.told.Told.TheVariants.{Moved};

use crate::told::Told;
use std::io;
use std::io::ErrorKind;

/// A device that is read and written at once or not at all.
pub trait Device {
    // The bytes that reads will give, or that they gave so far, where it tells them.
    ghost unread: { Self → Incoming } = { λ _. Untold };

    // The bytes that were written, where they are known.
    ghost written: { Self → Option (List ℕ) } = { λ _. None };

    // The calls of it, in order and with what it answered, where they are known.
    ghost asked: { Self → Option (List DeviceCall) } = { λ _. None };

    /// Reads what is there.
    fn read_now(&mut self, block: &mut [u8]) -> Told
        ensures bound { MovesAtMost result block.new }
        ensures bytes { HasGot (unread self.old) (unread self.new) result block.new }
        ensures apart { Keeps (written self.old) (written self.new) }
        ensures asked { IsAsked (asked self.old) (asked self.new)
            (Read (length block.old) result) };

    /// Writes what there is room for.
    fn write_now(&mut self, bytes: &[u8]) -> Told
        ensures bound { MovesAtMost result bytes.now }
        ensures bytes { HasGiven (written self.old) (written self.new) result bytes.now }
        ensures apart { GivesNone (unread self.old) (unread self.new) }
        ensures asked { IsAsked (asked self.old) (asked self.new)
            (Write (length bytes.now) result) };
}

/// What an answer of the system tells. A call that was interrupted is made again, as one that
/// would have waited.
pub fn answer_of(answer: &io::Result<usize>) -> Told
    ensures { MatchResult answer.now (λ size. result ≡ Moved size)
        (λ error. result ≡ told_of (error_kind error)) }
{
    match answer {
        Ok(size) => Told::Moved(*size),
        Err(error) => match error.kind() {
            ErrorKind::WouldBlock | ErrorKind::Interrupted => Told::Blocked,
            _ => Told::Failed,
        },
    }
}
