//! Texts of symbolic links, kept in place.

ghost use Rattle.std.specs.Prelude.{◌≡◌, ◌≤◌, ◌&&◌, nat_le, length};
ghost use Rattle.nfs_model.specs.Names.{same_name};
ghost use Rattle.memos.specs.Kept.{text_kept};

use crate::same::is_same_list;
use nfs_values::MOST_TEXT;

/// A text of at most 1,024 bytes.
#[derive(Clone, Copy)]
pub(crate) struct Text {
    size: u16,
    bytes: [u8; MOST_TEXT],
}

impl Text {
    /// What stands where none is kept.
    pub(crate) const EMPTY: Text = Text {
        size: 0,
        bytes: [0; MOST_TEXT],
    };

    /// Whether it is this one.
    pub(crate) fn is(&self, text: &[u8]) -> bool
        ensures { result ≡ nat_le (length text.now) 1024
            && same_name (text_kept self.now) text.now }
    {
        let size = usize::from(self.size).min(self.bytes.len());
        text.len() <= MOST_TEXT && is_same_list(&self.bytes[..size], text)
    }

    /// Keeps a text.
    pub(crate) fn put(&mut self, text: &[u8])
        requires { length text.now ≤ 1024 }
        ensures { text_kept self.new ≡ text.now }
    {
        self.bytes[..text.len()].copy_from_slice(text);
        self.size = text.len() as u16;
    }
}
