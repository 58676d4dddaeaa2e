//! The program, from its command line to its exit status.

ghost use Rattle.std.specs.Prelude.{◌≡◌, ◌≤◌, IfOk, OnOk, ℕ};
ghost use Rattle.filer_commands.specs.Performed.{HasEnded, HasPerformed};
ghost use Rattle.rpc_msg.specs.Offer.{export};
ghost use Rattle.nfs_values.specs.declared.moment.Moment.{Moment};

use crate::admin_running::{run_census, run_grow, run_stop};
use crate::choice::Command;
use crate::export_printing::exports_told;
use crate::exporting::Exporting;
use crate::machine::{Machine, host_name};
use crate::metrics_listener;
use crate::names::SystemNames;
use crate::port_mapping::Mapping;
use crate::words::{command_told, print_help};
use connections::Device;
use rpc_msg::Offer;
use scripts::{ProgramFault, print_fault, replay};
use server::{ServerFault, Socket, begun_now, run_now, serve, serve_told};
use server_options::Options;
use std::alloc::{AllocError, Global};
use std::convert::AsStr;
use std::fs::File;
use std::io::Write;
use std::net::{Net, SocketAddr, TcpListener, TcpStream};
use std::rt::{Clock, Files};
use std::sync::Wait;
use std::thread::Threads;

/// What ends a server, as what ends the program.
fn of_server(fault: ServerFault) -> ProgramFault {
    match fault {
        ServerFault::Listen => ProgramFault::Listen,
        ServerFault::Accept => ProgramFault::Accept,
        ServerFault::Thread => ProgramFault::Thread,
        ServerFault::NoMemory => ProgramFault::NoMemory,
        ServerFault::Output => ProgramFault::Output,
    }
}

/// Runs the script in a file, and tells the system's reason where that can't be opened.
fn run_script<R: Files + AllocGlobal, W: Write, E: Write>(
    rt: &R,
    path: &str,
    out: &mut W,
    err: &mut E,
) -> Result<u8, ProgramFault>
    ensures { IfOk result (λ status. status ≤ 1) }
{
    match File::open(rt, path) {
        Ok(mut file) => Ok(replay(rt.alloc(), &mut file, out)),
        Err(error) => {
            let fault = ProgramFault::of_file(&error);
            if fault == ProgramFault::File {
                let _told = writeln!(err, "filer replay {path}: the file can't be read: {error}");
            }
            Err(fault)
        }
    }
}

/// How much memory a server takes and gives back as it starts.
const KEPT: usize = 25_165_824;

/// Takes memory and gives it back. From then on the C library's allocator keeps twice as much of
/// what is free, where it would give it back to the system after each burst of long replies and
/// ask for it again. Where there is no memory nothing is done.
fn keep_freed_memory(alloc: Global) {
    let room: Result<Vec<u8>, AllocError> = Vec::with_capacity(alloc, KEPT);
    drop(room);
}

/// A listener at an address of a command, and tells the system's reason where it can't be had.
fn listen<R, E>(
    rt: &R,
    address: SocketAddr,
    command: &str,
    err: &mut E,
) -> Result<TcpListener, ProgramFault>
where
    R: Net<Listener = TcpListener, Stream = TcpStream>,
    E: Write,
{
    match TcpListener::bind(rt, address) {
        Ok(listener) => Ok(listener),
        Err(error) => {
            let _told = writeln!(
                err,
                "filer {command} --listen {address}: the address can't be listened at: {error}"
            );
            Err(ProgramFault::Listen)
        }
    }
}

/// Listens, and serves.
fn run_server<R, W, E>(
    rt: R,
    options: &Options,
    out: &mut W,
    err: &mut E,
) -> Result<u8, ProgramFault>
where
    R: AllocGlobal + Threads + Wait + Clock + Net<Listener = TcpListener, Stream = TcpStream>,
    R: Copy + Drop + Send + 'static,
    W: Write,
    E: Write,
    ensures status { IfOk result (λ status. status ≤ 1) }
    ensures ended { OnOk result
        (HasEnded R ⟦<Socket as Device>⟧ W.contents options.now out.new) }
{
    let listener = listen(&rt, options.address, "serve", err)?;
    keep_freed_memory(rt.alloc());
    match serve(rt, rt.alloc(), listener, options, out) {
        Ok(_left) => Ok(0),
        Err(fault) => Err(of_server(fault)),
    }
}

/// The version of the program.
const VERSION: &str = "filer 0.1, NFS version 3 (RFC 1813)";

fn print_version<W: Write>(out: &mut W) -> Result<u8, ProgramFault>
    ensures { IfOk result (λ status. status ≤ 1) }
{
    match writeln!(out, "{VERSION}") {
        Ok(()) => Ok(0),
        Err(_failed) => Err(ProgramFault::Output),
    }
}

/// Prints the help that the words ask for.
fn help_out<S: AsStr, W: Write>(alloc: Global, words: &[S], out: &mut W) -> Result<u8, ProgramFault>
    ensures { IfOk result (λ status. status ≤ 1) }
{
    match print_help(alloc, words, out) {
        Ok(()) => Ok(0),
        Err(fault) => Err(fault),
    }
}

/// What a fault is, for people; told before was what the command line is lacking, why a file can't
/// be opened or an address listened at, and why a running server doesn't answer.
fn describe(fault: ProgramFault) -> Option<&'static str> {
    match fault {
        ProgramFault::CommandLine
        | ProgramFault::File
        | ProgramFault::Listen
        | ProgramFault::Connect
        | ProgramFault::Reply
        | ProgramFault::CallRefused => None,
        ProgramFault::Accept => Some("a connection can't be accepted"),
        ProgramFault::Thread => Some("a thread can't be started"),
        ProgramFault::NoMemory => Some("out of memory"),
        ProgramFault::BadLine { .. } => Some("a line of the script can't be read"),
        ProgramFault::Output => Some("the output can't be written"),
    }
}

/// Tells a fault for people, with what the command is about.
fn tell<E: Write>(err: &mut E, command: Command<'_>, fault: ProgramFault) {
    let Some(text) = describe(fault) else {
        return;
    };
    let _told = match command {
        Command::Replay { path } => writeln!(err, "filer replay {path}: {text}"),
        Command::Serve(options) => {
            let address = options.address;
            writeln!(err, "filer serve --listen {address}: {text}")
        }
        Command::Export(exporting) => {
            let address = exporting.options.address;
            writeln!(err, "filer export --listen {address}: {text}")
        }
        Command::Census { server } => writeln!(err, "filer census --server {server}: {text}"),
        Command::Grow(growing) => {
            let server = growing.server;
            writeln!(err, "filer grow --server {server}: {text}")
        }
        Command::Stop { server } => writeln!(err, "filer stop --server {server}: {text}"),
        Command::Help => writeln!(err, "filer --help: {text}"),
        Command::Version => writeln!(err, "filer version: {text}"),
    };
}

/// Listens, tells people how to mount, and serves: until the connections that were asked for have
/// ended, until it is asked to stop, or for as long as the program runs. A port mapper runs beside
/// it, and metrics are told, where they are asked for.
fn run_export<R, W, E>(
    rt: R,
    exporting: &Exporting,
    out: &mut W,
    err: &mut E,
) -> Result<u8, ProgramFault>
where
    R: Files + AllocGlobal + Threads + Wait + Clock,
    R: Net<Listener = TcpListener, Stream = TcpStream>,
    R: Copy + Drop + Send + 'static,
    W: Write,
    E: Write,
    ensures status { IfOk result (λ status. status ≤ 1) }
    ensures ended { OnOk result ((run : ℕ) × (begun : Moment)
        × HasEnded R ⟦<Socket as Device>⟧ W.contents
        (record exporting.now.options { offer = export run; begun = begun }) out.new) }
{
    let offer = Offer::export(run_now(&rt));
    let options = &exporting
        .options
        .with_offer(offer)
        .with_begun(begun_now(&rt));
    let listener = listen(&rt, options.address, "export", err)?;
    keep_freed_memory(rt.alloc());
    let address = listener.local_addr().map_err(|_| ProgramFault::Listen)?;
    let metrics = metrics_listener::bind(&rt, rt.alloc(), exporting.metrics, err)?;
    let mapping = if exporting.has_port_mapper {
        Some(Mapping::start(rt, rt.alloc(), &address, options.rules.peers, err)?)
    } else {
        None
    };
    let mut name = [0; 256];
    let host = host_name(&rt, &mut name);
    let told_at = metrics_listener::address_of(&metrics);
    let opening = exports_told(rt.alloc(), options, &address, told_at, host);
    let served = serve_told(
        rt,
        rt.alloc(),
        listener,
        options,
        &opening,
        metrics,
        out,
        err,
    );
    if let Some(mapping) = mapping {
        mapping.end(&rt);
    }
    match served {
        Ok(_left) => Ok(0),
        Err(fault) => Err(of_server(fault)),
    }
}

/// Runs a command, of which the words were parsed.
fn run<R, S, W, E>(
    rt: R,
    command: Command<'_>,
    words: &[S],
    out: &mut W,
    err: &mut E,
) -> Result<u8, ProgramFault>
where
    R: Files + AllocGlobal + Threads + Wait + Clock,
    R: Net<Listener = TcpListener, Stream = TcpStream> + Copy + Drop + Send + 'static,
    S: AsStr,
    W: Write,
    E: Write,
    ensures status { IfOk result (λ status. status ≤ 1) }
    ensures performed { OnOk result
        (HasPerformed R ⟦<Socket as Device>⟧ W.contents command.entry out.new) }
{
    match command {
        Command::Replay { path } => run_script(&rt, path, out, err),
        Command::Serve(options) => run_server(rt, &options, out, err),
        Command::Export(exporting) => run_export(rt, &exporting, out, err),
        Command::Census { server } => run_census(&rt, server, out, err),
        Command::Grow(growing) => run_grow(&rt, growing, out, err),
        Command::Stop { server } => run_stop(&rt, server, out, err),
        Command::Help => help_out(rt.alloc(), words, out),
        Command::Version => print_version(out),
    }
}

/// Performs a command, of which these are the words, and answers the exit status: 1 for a fault, a
/// refused event or a failed write, else 0. A command that serves has status 0 only where its
/// server was served to its end: the headline with threads holds of what is left, and the last line
/// that was printed is `left` and how many messages weren't finished.
pub fn perform<R, S, W, E>(rt: R, command: Command<'_>, words: &[S], out: &mut W, err: &mut E) -> u8
where
    R: Files + AllocGlobal + Threads + Wait + Clock,
    R: Net<Listener = TcpListener, Stream = TcpStream> + Copy + Drop + Send + 'static,
    S: AsStr,
    W: Write,
    E: Write,
    ensures range { result ≤ 2 }
    ensures performed { result ≡ 0
        → HasPerformed R ⟦<Socket as Device>⟧ W.contents command.entry out.new }
{
    match run(rt, command, words, out, err) {
        Ok(status) => status,
        Err(fault) => {
            tell(err, command, fault);
            print_fault(out, fault);
            fault.status()
        }
    }
}

/// Performs the command that the words ask for, and answers the exit status: 2 for words that are
/// no command, else that of the command. What is for people alone is told by the second writer:
/// usage, what is wrong with a command line, and faults in words.
pub fn program<R, S, W, E>(rt: R, words: &[S], out: &mut W, err: &mut E) -> u8
where
    R: Files + AllocGlobal + Threads + Wait + Clock,
    R: Net<Listener = TcpListener, Stream = TcpStream> + Copy + Drop + Send + 'static,
    S: AsStr,
    W: Write,
    E: Write,
    ensures { result ≤ 2 }
{
    let machine = Machine::read(&rt);
    match command_told(rt.alloc(), words, machine, &SystemNames { net: &rt }, err) {
        Ok(command) => perform(rt, command, words, out, err),
        Err(fault) => {
            print_fault(out, fault);
            fault.status()
        }
    }
}
