//! Connections that are taken while a clerk writes what happens to them, and metrics are told.

use crate::accepting::{Door, accept_all};
use crate::crew::Mail;
use crate::fault::{ServerFault, of_serving};
use crate::inquiry::{self, Asked};
use crate::printing::print_address;
use crate::seconds::second_now;
use crate::stop_word::Watch;
use crate::telling::{self, Telling};
use clerk::{Clerk, write_until_end};
use metrics_server::MetricsServer;
use server_options::Options;
use std::alloc::Global;
use std::io::Write;
use std::net::{Net, TcpListener, TcpStream};
use std::rt::Clock;
use std::sync::Wait;
use std::sync::atomic::{AtomicBool, Ordering};
use std::thread;
use std::thread::Threads;

/// A clerk, the lines of the start that it writes first, and where it writes; and who tells
/// metrics, if they are told.
#[derive(Drop)]
pub(crate) struct Scribe<'a, 'b, E> {
    pub(crate) clerk: Clerk,
    pub(crate) opening: &'a str,
    pub(crate) err: &'b mut E,
    pub(crate) alloc: Global,
    pub(crate) metrics: Option<MetricsServer>,
}

/// Tells all lanes that no connection is accepted any more, where the server was asked to stop: the
/// listener is closed before.
fn stop<R: Clock>(rt: &R, mail: &Mail, listener: TcpListener) {
    drop(listener);
    if let Some(word) = &mail.common.stop {
        word.begin(second_now(rt));
    }
    mail.wake();
}

/// Takes the connections that are asked for, or until it is asked to stop, and waits for their
/// ends.
fn take_connections<R: Wait + Clock>(
    rt: &R,
    mail: &Mail,
    listener: TcpListener,
    options: &Options,
    watch: Option<Watch>,
) -> Result<(), ServerFault> {
    let mut door = Door::new(options, &mail.boxes, &mail.common);
    if let Err(fault) = accept_all(rt, &listener, &mut door, watch) {
        return Err(of_serving(fault));
    }
    if door.is_to_stop() {
        stop(rt, mail, listener);
        door.wait_for_all(rt);
        return Ok(());
    }
    door.wait_for_all(rt);
    Ok(())
}

/// Tells metrics until it is stopped.
fn tell_metrics<R>(
    rt: &R,
    mail: &Mail,
    options: &Options,
    alloc: Global,
    metrics: MetricsServer,
    stopped: &AtomicBool,
)
where
    R: Wait + Clock + Net<Listener = TcpListener, Stream = TcpStream>,
{
    let mut metrics = metrics;
    let asked = Asked {
        rt,
        alloc,
        mail,
        form: options.offer.handles(),
        patience: telling::PATIENCE,
    };
    metrics.serve(rt, &mut Telling::new(asked, options.rules.peers), stopped);
}

/// Writes the lines of the start, then what is left for the clerk, until nothing more is, and
/// statistics, as the options say.
fn write<R, E>(rt: &R, mail: &Mail, options: &Options, scribe: Scribe<'_, '_, E>)
where
    R: Wait + Clock + Net<Listener = TcpListener, Stream = TcpStream>,
    E: Write,
{
    let Scribe {
        mut clerk,
        opening,
        err,
        alloc,
        metrics: _,
    } = scribe;
    let _told = err.write_all(opening.as_bytes());
    let asked = Asked {
        rt,
        alloc,
        mail,
        form: options.offer.handles(),
        patience: inquiry::PATIENCE,
    };
    if let Some(journal) = &mail.common.journal {
        write_until_end(rt, &mut clerk, journal, &asked, options.statistics, err);
    }
}

/// The same, and tells metrics meanwhile, if they are told, on a thread of its own.
fn write_and_tell<R, E>(rt: &R, mail: &Mail, options: &Options, scribe: Scribe<'_, '_, E>)
where
    R: Threads + Wait + Clock + Copy + Send,
    R: Net<Listener = TcpListener, Stream = TcpStream>,
    E: Write,
{
    let mut scribe = scribe;
    let Some(metrics) = scribe.metrics.take() else {
        return write(rt, mail, options, scribe);
    };
    let (there, alloc) = (*rt, scribe.alloc);
    let is_stopped = AtomicBool::new(false);
    let stopped = &is_stopped;
    let ((), ()) = thread::join(
        rt,
        move || tell_metrics(&there, mail, options, alloc, metrics, stopped),
        move || {
            write(rt, mail, options, scribe);
            stopped.store(true, Ordering::SeqCst);
        },
    );
}

/// Takes the connections that are asked for, waits for their ends, and tells the clerk that nothing
/// more is left.
fn take_and_end<R: Wait + Clock>(
    rt: &R,
    mail: &Mail,
    listener: TcpListener,
    options: &Options,
    watch: Watch,
) -> Result<(), ServerFault> {
    let taken = take_connections(rt, mail, listener, options, Some(watch));
    if let Some(journal) = &mail.common.journal {
        journal.end();
    }
    taken
}

/// Whether one thread more can be made: one is, and ends at once.
fn has_thread<R: Threads>(rt: &R) -> bool {
    match thread::spawn(rt, || ()) {
        Ok(child) => {
            child.join(rt);
            true
        }
        Err(_refused) => false,
    }
}

/// Whether the threads of a scribe can be made: a clerk's, and another one where metrics are told.
fn has_threads<R: Threads, E>(rt: &R, scribe: &Scribe<'_, '_, E>) -> bool {
    if scribe.metrics.is_none() {
        return has_thread(rt);
    }
    match thread::spawn(rt, || ()) {
        Ok(child) => {
            let has_another = has_thread(rt);
            child.join(rt);
            has_another
        }
        Err(_refused) => false,
    }
}

/// Takes the connections that are asked for, and waits for their ends, while a clerk writes what
/// happens and metrics are told, if there is one, on threads of their own.
pub(crate) fn accept<R, E>(
    rt: &R,
    mail: &Mail,
    listener: TcpListener,
    options: &Options,
    scribe: Option<(Watch, Scribe<'_, '_, E>)>,
) -> Result<(), ServerFault>
where
    R: Threads + Wait + Clock + Copy + Send,
    R: Net<Listener = TcpListener, Stream = TcpStream>,
    E: Write,
{
    let Some((watch, scribe)) = scribe else {
        return take_connections(rt, mail, listener, options, None);
    };
    let there = *rt;
    let (taken, ()) = thread::join(
        rt,
        move || take_and_end(&there, mail, listener, options, watch),
        move || write_and_tell(rt, mail, options, scribe),
    );
    taken
}

/// The same, once it is printed where the server listens. Where these threads can't be made nothing
/// is printed and no connection is taken.
pub(crate) fn take_all<R, W, E>(
    rt: &R,
    mail: &Mail,
    listener: TcpListener,
    options: &Options,
    out: &mut W,
    scribe: Option<(Watch, Scribe<'_, '_, E>)>,
) -> Result<(), ServerFault>
where
    R: Threads + Wait + Clock + Copy + Send,
    R: Net<Listener = TcpListener, Stream = TcpStream>,
    W: Write,
    E: Write,
{
    if let Some((_watch, scribe)) = &scribe {
        if !has_threads(rt, scribe) {
            return Err(ServerFault::Thread);
        }
    }
    print_address(&listener, out)?;
    accept(rt, mail, listener, options, scribe)
}
