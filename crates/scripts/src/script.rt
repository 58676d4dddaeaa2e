//! Scripts: lines of a layout, then lines of events.

ghost use Rattle.std.specs.Prelude.{◌≡◌, ◌+◌, ◌<◌, ◌≤◌, ◌^◌, ◌⊎◌, ◌↔◌, [], ◌∷◌, ◌++◌};
ghost use Rattle.std.specs.Prelude.{length, Contains, IsTrue, IfOk, IfErr, IsSome, IfSome};
ghost use Rattle.affinity.specs.Specification.{volume_asked};
ghost use Rattle.affinity.specs.Fault.{is_limited, is_striped};

mod line;
mod verb;
mod word;

use crate::fault::ProgramFault;
pub(crate) use crate::script::line::Request;
use crate::script::line::{LayoutLine, Unread, read_layout_line, read_request};
use affinity::{
    AggregateSpec, Layout, LayoutFault, MIB, MOST_AGGREGATES, MOST_MIB, MOST_RANGES, MOST_SPARE,
    MOST_STRIPES, MOST_VOLUMES, STRIPES, VolumeSpec,
};
use std::alloc::Global;

/// What ends a line.
const LINE_FEED: u8 = b'\n';

/// The most workers of an engine.
const MOST_WORKERS: u32 = tends::MOST_WORKERS as u32;

/// The most lines of a layout, the one that starts its engine with them.
const LAYOUT_LINES: usize = MOST_AGGREGATES + MOST_VOLUMES + 1;

/// Whether one more aggregate may follow these lines.
fn is_aggregate(aggregates: &[AggregateSpec], volumes: &[VolumeSpec], spare: u32) -> bool
    ensures { IsTrue result ↔ (volumes.now ≡ []) × (length aggregates.now < 2) × (spare ≤ 128) }
{
    volumes.is_empty() && aggregates.len() < MOST_AGGREGATES && spare <= MOST_SPARE
}

/// Whether one more volume may follow these lines.
fn is_volume(aggregates: &[AggregateSpec], volumes: &[VolumeSpec], volume: VolumeSpec) -> bool
    ensures { IsTrue result
        ↔ (length volumes.now < 8) × (volume.aggregate < length aggregates.now)
        × (1 ≤ volume.ranges) × (volume.ranges ≤ 16) × IsTrue (is_striped (volume_asked volume))
        × IsTrue (is_limited (volume_asked volume)) }
{
    volumes.len() < MOST_VOLUMES
        && (volume.aggregate as usize) < aggregates.len()
        && 1 <= volume.ranges
        && volume.ranges <= MOST_RANGES
        && (volume.stripes == STRIPES || volume.stripes == MOST_STRIPES)
        && (volume.mib == MIB || volume.mib == MOST_MIB)
}

/// Whether an engine may have this many workers.
fn is_worker_count(workers: u32) -> bool
    ensures { IsTrue result ↔ (1 ≤ workers) × (workers ≤ 64) }
{
    1 <= workers && workers <= MOST_WORKERS
}

/// Whether a line is empty or a comment.
fn is_skipped(text: &[u8]) -> bool {
    matches!(text, [] | [b'#', ..])
}

/// The lines of a script, of which some are read.
#[derive(Drop)]
pub(crate) struct Script<'a> {
    alloc: Global,
    rest: &'a [u8],
    /// How many lines are read.
    count: usize,
    ghost room: { count + length rest.now < 2 ^ 63 },
}

/// What an engine is started with.
#[derive(Drop)]
pub(crate) struct Start {
    pub(crate) layout: Layout,
    pub(crate) verifier: [u8; 8],
    pub(crate) workers: usize,
}

impl<'a> Script<'a> {
    ghost use Rattle.affinity.specs.Layout.{layout_of};
    ghost use Rattle.affinity.specs.Specification.{layout_in};

    /// A script of which nothing is read.
    pub(crate) fn new(alloc: Global, text: &'a [u8]) -> Script<'a>
        ensures rest { result.rest.now ≡ text.now }
        ensures count { result.count ≡ 0 }
    {
        Script {
            alloc,
            rest: text,
            count: 0,
        }
    }

    /// That the line read last is of no form that a line may have there.
    fn bad_line(&self) -> ProgramFault
        ensures { result ≡ ProgramFault.BadLine self.now.count }
    {
        ProgramFault::BadLine { number: self.count }
    }

    /// The next line without its line feed; nothing at the end. A last line without a line feed is
    /// bad.
    fn next_text(&mut self) -> Result<Option<&'a [u8]>, ProgramFault>
        ensures end { IfOk result (λ text. text ≡ None
            → (self.old.rest.now ≡ []) × (self.new ≡ self.old)) }
        ensures line { IfOk result (λ text. IfSome text
            (λ line. self.old.rest.now ≡ line.now ++ 10 ∷ self.new.rest.now)) }
        ensures whole { IfOk result (λ text. IfSome text (λ line. ¬ Contains line.now 10)) }
        ensures count { IfOk result (λ text. IfSome text
            (λ _. self.new.count ≡ self.old.count + 1)) }
        ensures shorter { IfOk result (λ text. IfSome text
            (λ _. length self.new.rest.now < length self.old.rest.now)) }
        ensures err { IfErr result (λ fault. (fault ≡ ProgramFault.BadLine (self.old.count + 1))
            × ¬ Contains self.old.rest.now 10) }
    {
        let rest = self.rest;
        if rest.is_empty() {
            return Ok(None);
        }
        let Some(end) = rest.iter().position(|byte| *byte == LINE_FEED) else {
            return Err(ProgramFault::BadLine {
                number: self.count + 1,
            });
        };
        self.rest = &rest[end + 1..];
        self.count += 1;
        Ok(Some(&rest[..end]))
    }

    /// The next line that is neither empty nor a comment; nothing at the end.
    pub(crate) fn next_line(&mut self) -> Result<Option<&'a [u8]>, ProgramFault>
        ensures { IfOk result (λ line. IsSome line
            → length self.new.rest.now < length self.old.rest.now) }
    {
        while let Some(text) = self.next_text()? {
            if !is_skipped(text) {
                return Ok(Some(text));
            }
        }
        Ok(None)
    }

    /// Why the line read last ends the script, where it can't be read.
    fn fault_of(&self, unread: Unread) -> ProgramFault {
        match unread {
            Unread::Form => self.bad_line(),
            Unread::NoMemory => ProgramFault::NoMemory,
        }
    }

    /// The next line of the layout. Where the script ends, the line past its last is bad.
    fn layout_line(&mut self) -> Result<LayoutLine, ProgramFault> {
        let Some(text) = self.next_line()? else {
            return Err(ProgramFault::BadLine {
                number: self.count + 1,
            });
        };
        match read_layout_line(text) {
            Ok(line) => Ok(line),
            Err(unread) => Err(self.fault_of(unread)),
        }
    }

    /// Takes the next line of the layout: aggregates, then volumes, then the line that starts its
    /// engine, which is answered.
    fn read_layout_line(
        &mut self,
        aggregates: &mut Vec<AggregateSpec>,
        volumes: &mut Vec<VolumeSpec>,
    ) -> Result<Option<(usize, [u8; 8])>, ProgramFault>
        ensures { IfOk result (λ started. IfSome started (λ s. (1 ≤ s.0) × (s.0 ≤ 64))) }
    {
        match self.layout_line()? {
            LayoutLine::Aggregate { spare } if is_aggregate(aggregates, volumes, spare) => {
                aggregates.try_reserve(1)?;
                aggregates.push_reserved(AggregateSpec { spare });
                Ok(None)
            }
            LayoutLine::Volume(volume) if is_volume(aggregates, volumes, volume) => {
                volumes.try_reserve(1)?;
                volumes.push_reserved(volume);
                Ok(None)
            }
            LayoutLine::Start { workers, verifier } if is_worker_count(workers) => {
                Ok(Some((workers as usize, verifier)))
            }
            _ => Err(self.bad_line()),
        }
    }

    /// The lines of the layout, up to the one that starts its engine, of which this is answered.
    fn read_layout(
        &mut self,
        aggregates: &mut Vec<AggregateSpec>,
        volumes: &mut Vec<VolumeSpec>,
    ) -> Result<(usize, [u8; 8]), ProgramFault>
        ensures { IfOk result (λ started. (1 ≤ started.0) × (started.0 ≤ 64)) }
    {
        for _ in 0..LAYOUT_LINES {
            if let Some(started) = self.read_layout_line(aggregates, volumes)? {
                return Ok(started);
            }
        }
        Err(self.bad_line())
    }

    /// The layout, up to the line that starts its engine.
    pub(crate) fn read_start(&mut self) -> Result<Start, ProgramFault>
        ensures workers { IfOk result (λ start. 1 ≤ start.workers) }
        ensures most { IfOk result (λ start. start.workers ≤ 64) }
    {
        let mut aggregates = Vec::new(self.alloc);
        let mut volumes = Vec::new(self.alloc);
        let (workers, verifier) = self.read_layout(&mut aggregates, &mut volumes)?;
        let layout = self.layout(&aggregates, &volumes)?;
        Ok(Start {
            layout,
            verifier,
            workers,
        })
    }

    /// The layout of these; the line read last is bad where they are none.
    fn layout(
        &self,
        aggregates: &[AggregateSpec],
        volumes: &[VolumeSpec],
    ) -> Result<Layout, ProgramFault>
        ensures layout { IfOk result
            (λ layout. layout_of layout ≡ layout_in aggregates.now volumes.now) }
        ensures bad { IfErr result (λ fault. (fault ≡ ProgramFault.NoMemory)
            ⊎ (fault ≡ ProgramFault.BadLine self.now.count)) }
    {
        match Layout::new(self.alloc, aggregates, volumes) {
            Ok(layout) => Ok(layout),
            Err(LayoutFault::NoMemory) => Err(ProgramFault::NoMemory),
            Err(_) => Err(self.bad_line()),
        }
    }

    /// What the line read last asks for. The bytes of a feed replace those in the buffer.
    pub(crate) fn request_in<'b>(
        &self,
        text: &[u8],
        bytes: &'b mut Vec<u8>,
    ) -> Result<Request<'b>, ProgramFault> {
        match read_request(self.alloc, text, bytes) {
            Ok(request) => Ok(request),
            Err(unread) => Err(self.fault_of(unread)),
        }
    }
}
