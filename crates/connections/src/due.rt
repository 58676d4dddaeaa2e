//! What is owed to a connection.

ghost use Rattle.std.specs.Prelude.{◌≡◌};
ghost use Rattle.connections.specs.Connections.{nothing_due, with_reply, without_reply};

/// What is owed to a connection for its records: this many replies, and about how much room they
/// take. It says nothing of the connection's bytes.
#[derive(Clone, Copy, PartialEq, Eq, Debug)]
pub struct Due {
    pub replies: usize,
    pub room: usize,
}

/// The least room that is counted for a reply.
const LEAST_ROOM: usize = 256;

impl Due {
    /// Nothing.
    pub fn nothing() -> Due
        ensures { result ≡ nothing_due }
    {
        Due {
            replies: 0,
            room: 0,
        }
    }

    /// A record was given on, whose reply has so much room.
    pub fn add(&mut self, room: usize)
        ensures { self.new ≡ with_reply room self.old }
    {
        self.replies = self.replies.saturating_add(1);
        self.room = self.room.saturating_add(room.max(LEAST_ROOM));
    }

    /// A reply of so much room was taken to be written.
    pub(crate) fn take(&mut self, room: usize)
        ensures { self.new ≡ without_reply room self.old }
    {
        self.replies = self.replies.saturating_sub(1);
        self.room = self.room.saturating_sub(room.max(LEAST_ROOM));
        if self.replies == 0 {
            self.room = 0;
        }
    }
}
