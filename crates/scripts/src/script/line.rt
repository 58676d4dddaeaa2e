//! The lines of a script.

use crate::script::verb::{Verb, verb_of};
use crate::script::word::Words;
use affinity::VolumeSpec;
use engine::Event;
use nfs_values::{Moment, VolumeNumber};
use std::alloc::Global;

/// A line of a layout.
#[derive(Clone, Copy)]
pub(crate) enum LayoutLine {
    /// An aggregate with this many spare ranges.
    Aggregate { spare: u32 },
    Volume(VolumeSpec),
    /// The end of the layout: how many workers, and the write verifier.
    Start { workers: u32, verifier: [u8; 8] },
}

/// What a line behind the layout asks for.
#[derive(Clone, Copy)]
pub(crate) enum Request<'a> {
    /// That something happens to the engine.
    Event(Event<'a>),
    /// How many blocks of a volume are in each part.
    Parts { volume: VolumeNumber },
}

/// Why a line can't be read.
#[derive(Clone, Copy)]
pub(crate) enum Unread {
    /// It is of no form that a line may have where it stands.
    Form,
    /// Memory ran out.
    NoMemory,
}

/// What a line of a layout says, its line feed left off.
pub(crate) fn read_layout_line(line: &[u8]) -> Result<LayoutLine, Unread> {
    let mut words = Words::new(line);
    let said = match verb_of(words.word()?) {
        Some(Verb::Aggregate) => {
            let [spare] = words.numbers::<1>()?;
            LayoutLine::Aggregate { spare }
        }
        Some(Verb::Volume) => LayoutLine::Volume(volume_line(&mut words)?),
        Some(Verb::Start) => {
            let [workers] = words.numbers::<1>()?;
            let verifier = words.verifier()?;
            LayoutLine::Start { workers, verifier }
        }
        _ => return Err(Unread::Form),
    };
    words.end()?;
    Ok(said)
}

/// A volume: its aggregate and its ranges, and then nothing, or its stripes and its mebibytes.
fn volume_line(words: &mut Words<'_>) -> Result<VolumeSpec, Unread> {
    let [aggregate, ranges] = words.numbers::<2>()?;
    let ordinary = VolumeSpec::new(aggregate, ranges);
    if words.is_ended() {
        return Ok(ordinary);
    }
    let [stripes, mib] = words.numbers::<2>()?;
    Ok(VolumeSpec {
        stripes,
        mib,
        ..ordinary
    })
}

/// What a line behind the layout asks for, its line feed left off. The bytes of a feed replace
/// those in the buffer.
pub(crate) fn read_request<'b>(
    alloc: Global,
    line: &[u8],
    bytes: &'b mut Vec<u8>,
) -> Result<Request<'b>, Unread> {
    let mut words = Words::new(line);
    let verb = verb_of(words.word()?).ok_or(Unread::Form)?;
    let request = match verb {
        Verb::Parts => Request::Parts {
            volume: words.volume()?,
        },
        Verb::Feed => {
            let connection = words.connection()?;
            *bytes = words.bytes(alloc)?;
            Request::Event(Event::Feed { connection, bytes })
        }
        Verb::Fetch | Verb::Cull | Verb::PutDown | Verb::Survey => {
            Request::Event(carrying_of(verb, &mut words)?)
        }
        _ => Request::Event(serving_of(verb, &mut words)?),
    };
    words.end()?;
    Ok(request)
}

/// An event of blocks that a worker carries in its hand, or counts.
fn carrying_of(verb: Verb, words: &mut Words<'_>) -> Result<Event<'static>, Unread> {
    let worker = words.worker()?;
    match verb {
        Verb::Fetch => {
            let volume = words.volume()?;
            let [range] = words.numbers::<1>()?;
            Ok(Event::Fetch {
                worker,
                volume,
                range,
            })
        }
        Verb::Cull => {
            let volume = words.volume()?;
            Ok(Event::Cull { worker, volume })
        }
        Verb::PutDown => Ok(Event::PutDown { worker }),
        Verb::Survey => {
            let volume = words.volume()?;
            Ok(Event::Survey { worker, volume })
        }
        _ => Err(Unread::Form),
    }
}

/// An event of a connection or of a call, but a feed.
fn serving_of(verb: Verb, words: &mut Words<'_>) -> Result<Event<'static>, Unread> {
    let event = match verb {
        Verb::Open => Event::Open,
        Verb::Close => {
            let connection = words.connection()?;
            Event::Close { connection }
        }
        Verb::Begin => {
            let worker = words.worker()?;
            let place = words.place()?;
            let [seconds, nanoseconds] = words.numbers::<2>()?;
            Event::Begin {
                worker,
                place,
                moment: Moment {
                    seconds,
                    nanoseconds,
                },
            }
        }
        Verb::Work => {
            let worker = words.worker()?;
            Event::Work { worker }
        }
        Verb::Finish => {
            let worker = words.worker()?;
            Event::Finish { worker }
        }
        _ => return Err(Unread::Form),
    };
    Ok(event)
}
