//! Messages in cells, beside the lines that the cells are in.

ghost use Rattle.std.specs.Prelude.{◌≡◌, ◌<◌, ◌≤◌, [], ◌∷◌, ◌++◌, length, map, take, Some, None};
ghost use Rattle.std.specs.Prelude.{slice_set, vec_capacity};
ghost use Rattle.std.specs.List.{slice_get};
ghost use Rattle.affinity.specs.Affinity.{call_node};
ghost use Rattle.scheduler.specs.QueueNumber.{HasQueue};
ghost use Rattle.scheduler.specs.Kept.{present, lines_of, HaveQueues};
ghost use Rattle.scheduler.specs.Kept.{HasMessage};

use crate::lines::{CELLS, Lines};
use crate::message::Message;
use crate::queue_number::queue_of;

/// Adds a message in a cell of its own.
pub(crate) fn append<C>(
    messages: &mut Vec<Option<Message<C>>>,
    lines: &mut Lines,
    message: Message<C>,
)
    requires lined { lines.old ≡ lines_of messages.old.items }
    requires cells { length messages.old.items < 2048 }
    requires room { 2048 ≤ vec_capacity messages.old }
    requires queue { HasQueue (call_node message.affinity) }
    ensures messages { messages.new.items ≡ messages.old.items ++ Some message ∷ [] }
    ensures lined { lines.new ≡ lines_of messages.new.items }
    ensures room { vec_capacity messages.new ≡ vec_capacity messages.old }
{
    lines.push(queue_of(message.affinity));
    messages.push_reserved(Some(message));
}

/// Makes a cell for one more message, and answers where the cells in use begin.
pub(crate) fn make_room<C: Drop>(
    messages: &mut Vec<Option<Message<C>>>,
    lines: &mut Lines,
    start: usize,
) -> usize
    requires lined { lines.old ≡ lines_of messages.old.items }
    requires queues { HaveQueues messages.old.items }
    requires count { length (present messages.old.items) < 2048 }
    requires within { start ≤ length messages.old.items }
    requires vacant { present (take start messages.old.items) ≡ [] }
    ensures messages { present messages.new.items ≡ present messages.old.items }
    ensures lined { lines.new ≡ lines_of messages.new.items }
    ensures queues { HaveQueues messages.new.items }
    ensures cells { length messages.new.items < 2048 }
    ensures within { result ≤ length messages.new.items }
    ensures vacant { present (take result messages.new.items) ≡ [] }
    ensures room { vec_capacity messages.new ≡ vec_capacity messages.old }
{
    if lines.len() < CELLS {
        return start;
    }
    drop_vacant(messages);
    renumber(messages, lines);
    0
}

/// Moves the messages together, in their order.
fn drop_vacant<C: Drop>(messages: &mut Vec<Option<Message<C>>>)
    ensures messages { messages.new.items ≡ map Some (present messages.old.items) }
    ensures room { vec_capacity messages.new ≡ vec_capacity messages.old }
{
    messages.retain(|message| message.is_some());
}

/// Puts the messages into lines again, each in the next cell.
fn renumber<C>(messages: &[Option<Message<C>>], lines: &mut Lines)
    requires queues { HaveQueues messages.now }
    requires cells { length messages.now ≤ 2048 }
    ensures { lines.new ≡ lines_of (map Some (present messages.now)) }
{
    lines.clear();
    for message in messages {
        if let Some(message) = message {
            lines.push(queue_of(message.affinity));
        }
    }
}

/// Takes the message out of a cell that has one.
pub(crate) fn take_out<C>(
    messages: &mut [Option<Message<C>>],
    lines: &mut Lines,
    cell: usize,
) -> Message<C>
    requires lined { lines.old ≡ lines_of messages.old }
    requires queues { HaveQueues messages.old }
    requires within { cell < length messages.old }
    requires there { HasMessage messages.old cell }
    ensures message { slice_get messages.old cell ≡ Some (Some result) }
    ensures messages { messages.new ≡ slice_set messages.old cell None }
    ensures lined { lines.new ≡ lines_of messages.new }
{
    match messages[cell].take() {
        Some(message) => {
            lines.vacate(cell, queue_of(message.affinity));
            message
        }
        None => unreachable!(),
    }
}

/// The cell of the message at a place.
pub(crate) fn cell_at<C>(messages: &[Option<Message<C>>], start: usize, place: usize) -> usize
    requires vacant { present (take start messages.now) ≡ [] }
    requires place { place < length (present messages.now) }
    ensures within { result < length messages.now }
    ensures there { HasMessage messages.now result }
    ensures place { length (present (take result messages.now)) ≡ place }
{
    let mut left = place;
    for cell in start..messages.len() {
        if messages[cell].is_some() {
            if left == 0 {
                return cell;
            }
            left -= 1;
        }
    }
    unreachable!()
}

/// The place of the message in a cell.
pub(crate) fn place_of<C>(messages: &[Option<Message<C>>], start: usize, cell: usize) -> usize
    requires vacant { present (take start messages.now) ≡ [] }
    requires within { cell < length messages.now }
    requires there { HasMessage messages.now cell }
    ensures { result ≡ length (present (take cell messages.now)) }
{
    let mut place = 0;
    for earlier in start..cell {
        place += usize::from(messages[earlier].is_some());
    }
    place
}

/// The first cell from one on that has a message; the end where there is none.
pub(crate) fn first_used<C>(messages: &[Option<Message<C>>], start: usize) -> usize
    requires within { start ≤ length messages.now }
    requires vacant { present (take start messages.now) ≡ [] }
    ensures within { result ≤ length messages.now }
    ensures vacant { present (take result messages.now) ≡ [] }
{
    let mut cell = start;
    while cell < messages.len() && messages[cell].is_none() {
        cell += 1;
    }
    cell
}
