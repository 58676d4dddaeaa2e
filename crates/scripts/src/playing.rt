//! Scripts that are run, with a line printed for each event.

ghost use Rattle.std.specs.Prelude.{◌<◌, ◌≤◌, [], ◌∷◌, ◌++◌, length, IfOk, IfSome, OnOk};
ghost use Rattle.std.specs.Io.KnownBytes.{Appends};
ghost use Rattle.scripts.specs.Lines.{line_of};

use crate::fault::ProgramFault;
use crate::printing::{print_counts, print_fault, print_output, print_parts, print_refusal, say};
use crate::script::{Request, Script, Start};
use byteorder::{BigEndian, ByteOrder};
use engine::{Done, Engine, Event, Refusal, Stop};
use nfs_values::{ConnectionNumber, VolumeNumber};
use std::alloc::Global;
use std::io::{BufWriter, Read, Write};

/// The bit of a record's header beside its length (RFC 5531 section 11).
const LAST_FRAGMENT: u32 = 0x8000_0000;

/// How many of the bytes are the record that they begin with, which is one fragment.
fn record_len(bytes: &[u8]) -> usize
    ensures some { 0 < length bytes.now → 0 < result }
    ensures within { result ≤ length bytes.now }
{
    if bytes.len() < 4 {
        return bytes.len();
    }
    let header = BigEndian::read_u32(&bytes[..4]);
    let size = (header % LAST_FRAGMENT) as usize;
    bytes.len().min(4 + size)
}

/// Prints the records that were written to a connection, each as a line.
fn print_records<W: Write>(
    out: &mut W,
    connection: ConnectionNumber,
    records: &[u8],
) -> Result<(), ProgramFault> {
    let mut rest = records;
    while !rest.is_empty() {
        let (record, others) = rest.split_at(record_len(rest));
        print_output(out, connection, record)?;
        rest = others;
    }
    Ok(())
}

/// The bytes written to the connection of a feed, so far.
fn output_before(engine: &Engine, event: Event<'_>) -> usize {
    match event {
        Event::Feed { connection, .. } => engine.output(connection.0).len(),
        _ => 0,
    }
}

/// Prints what a feed came to: how many bytes were taken and what stopped it, and the records that
/// were written since there were this many bytes.
fn print_fed<W: Write>(
    engine: &Engine,
    connection: ConnectionNumber,
    before: usize,
    taken: usize,
    stop: Stop,
    out: &mut W,
) -> Result<(), ProgramFault> {
    let stop = stop.number();
    say(out, format_args!("taken {taken} stop {stop}"))?;
    let output = engine.output(connection.0);
    print_records(out, connection, &output[before.min(output.len())..])
}

/// Prints the last this many bytes that were written to a connection.
fn print_written<W: Write>(
    engine: &Engine,
    connection: ConnectionNumber,
    count: usize,
    out: &mut W,
) -> Result<(), ProgramFault> {
    let output = engine.output(connection.0);
    let before = output.len().saturating_sub(count);
    print_output(out, connection, &output[before..])
}

/// Prints what an event came to.
fn print_done<W: Write>(
    engine: &Engine,
    event: Event<'_>,
    before: usize,
    done: Done,
    out: &mut W,
) -> Result<(), ProgramFault>
    ensures line { OnOk result (IfSome (line_of done) (λ line.
        Appends (W.contents out.old) (W.contents out.new) (line ++ 10 ∷ []))) }
{
    match done {
        Done::Opened { connection } => say(out, format_args!("conn {connection}")),
        Done::Fed { taken, stop } => match event {
            Event::Feed { connection, .. } => {
                print_fed(engine, connection, before, taken, stop, out)
            }
            // only a feed comes to it
            _ => Ok(()),
        },
        Done::Closed => match event {
            Event::Close { connection } => say(out, format_args!("closed {connection}")),
            // only a close comes to it
            _ => Ok(()),
        },
        Done::Granted { affinity } => say(out, format_args!("granted {affinity}")),
        Done::Replied => say(out, "reply"),
        Done::Starved => say(out, "starved"),
        Done::Moved { affinity } => say(out, format_args!("move {affinity}")),
        Done::PutBack => say(out, "back"),
        Done::Written { connection, count } => print_written(engine, connection, count, out),
        Done::InHand { count } => say(out, format_args!("hand {count}")),
        Done::PutDown { count } => say(out, format_args!("put {count}")),
        Done::Surveyed { counts } => print_counts(out, &counts),
    }
}

/// Gives an event to the engine, and prints its line. Answers whether it was refused.
fn take<W: Write>(
    engine: &mut Engine,
    event: Event<'_>,
    out: &mut W,
) -> Result<bool, ProgramFault> {
    let before = output_before(engine, event);
    match engine.step(event) {
        Ok(done) => {
            print_done(engine, event, before, done, out)?;
            Ok(false)
        }
        Err(refusal) => {
            print_refusal(out, refusal)?;
            Ok(true)
        }
    }
}

/// Prints how many blocks of a volume are in each part. Answers whether there is no such volume.
fn count<W: Write>(
    engine: &Engine,
    volume: VolumeNumber,
    out: &mut W,
) -> Result<bool, ProgramFault> {
    match engine.parts(volume) {
        Some(counts) => {
            print_parts(out, counts)?;
            Ok(false)
        }
        None => {
            print_refusal(out, Refusal::NoSuchRange)?;
            Ok(true)
        }
    }
}

/// Does what a line asks for, and prints its line. Answers whether it was refused.
fn play<W: Write>(
    engine: &mut Engine,
    request: Request<'_>,
    out: &mut W,
) -> Result<bool, ProgramFault> {
    match request {
        Request::Event(event) => take(engine, event, out),
        Request::Parts { volume } => count(engine, volume, out),
    }
}

/// Plays the lines of a script up to its end, and answers whether one was refused.
fn play_all<W: Write>(
    script: &mut Script<'_>,
    engine: &mut Engine,
    bytes: &mut Vec<u8>,
    out: &mut W,
) -> Result<bool, ProgramFault> {
    let mut refused = false;
    while let Some(text) = script.next_line()? {
        let request = script.request_in(text, bytes)?;
        refused |= play(engine, request, out)?;
    }
    Ok(refused)
}

/// Runs a script up to its end, and answers whether a line was refused.
fn run<W: Write>(alloc: Global, text: &[u8], out: &mut W) -> Result<bool, ProgramFault> {
    let mut script = Script::new(alloc, text);
    let Start {
        layout,
        verifier,
        workers,
    } = script.read_start()?;
    let mut engine = Engine::new(alloc, layout, verifier, workers)?;
    play_all(&mut script, &mut engine, &mut Vec::new(alloc), out)
}

/// Runs a script with its lines kept back until there are many of them, or none follows, and
/// answers the exit status. A fault of the script is printed after the lines before it.
fn run_buffered<W: Write>(alloc: Global, text: &[u8], out: &mut W) -> Result<u8, ProgramFault>
    ensures { IfOk result (λ status. status ≤ 1) }
{
    let mut buffered = BufWriter::new(alloc, out).map_err(|_| ProgramFault::NoMemory)?;
    let status = match run(alloc, text, &mut buffered) {
        Ok(refused) => u8::from(refused),
        Err(fault) => {
            print_fault(&mut buffered, fault);
            1
        }
    };
    buffered.flush().map_err(|_| ProgramFault::Output)?;
    Ok(status)
}

/// Reads a script whole.
fn read_whole<R: Read>(alloc: Global, script: &mut R) -> Result<Vec<u8>, ProgramFault> {
    let mut text = Vec::new(alloc);
    match script.read_to_end(&mut text) {
        Ok(_) => Ok(text),
        Err(error) => Err(ProgramFault::of_file(&error)),
    }
}

/// Runs a script, which is read whole before a line is printed, and answers the exit status: 1
/// where a line was refused, another was bad, a read or a write failed or memory ran out, else 0.
pub fn replay<R: Read, W: Write>(alloc: Global, script: &mut R, out: &mut W) -> u8
    ensures { result ≤ 1 }
{
    match read_whole(alloc, script).and_then(|text| run_buffered(alloc, &text, out)) {
        Ok(status) => status,
        Err(fault) => {
            print_fault(out, fault);
            1
        }
    }
}
