//! A server, from its start to what is left.

ghost use Rattle.std.specs.Prelude.{◌≡◌, ◌≤◌, ◌+◌, ℕ, [], List, length};
ghost use Rattle.std.specs.Prelude.{All, IfOk, OnOk};
ghost use Rattle.std.specs.Prelude.{vec_len, vec_capacity};
ghost use Rattle.std.specs.Arc.{arc_value};
ghost use Rattle.depot_rule.specs.Sums.{total};
ghost use Rattle.lanes.specs.declared.lane.Lane as laned;
ghost use Rattle.filer_lanes.specs.Ends.{unfinished_in, IsEndOf};
ghost use Rattle.filer_lanes.specs.ThreadedHeadline.{ThreadedHeadline};
ghost use Rattle.rpc_msg.specs.HandleForm.{verifier_of};
ghost use Rattle.rpc_msg.specs.Offer.{form_of};
ghost use Rattle.rpc_msg.specs.declared.handle_form.HandleForm.TheVariants.{OfRun};
ghost use Rattle.rpc_msg.specs.declared.offer.Offer as offers;
ghost use Rattle.granted_calls.specs.Filers.{layout_in, verifier_in};
ghost use Rattle.nfs_values.specs.Moment.{moment_of};
ghost use Rattle.server.specs.Planned.{IsLaidOut};
ghost use Rattle.server.specs.Served.{left_line, EndsWith, HasServed};
ghost use Rattle.lanes.specs.Words.{Identity};
ghost use Rattle.filer_lanes.specs.Lanes.{by_identity, seats_of, IsLaneOf};
ghost use Rattle.server.specs.Threads.{identity_for, seats_for, AreOfThreads};
ghost use Rattle.server.specs.Threads.{AllServe, AreThreadsOf, IsTaskFor};
ghost use Rattle.server.specs.declared.socket.Socket as sockets;
ghost use Rattle.granted_calls.specs.declared.shared.Filer as filers;

use crate::common::Common;
use crate::crew::{Mail, join_all, start_all};
use crate::entrance::{Scribe, take_all};
use crate::fault::{ServerFault, of_clerk, of_start};
use crate::mailbox::Mailbox;
use crate::opening::{layout_of, verifier_for};
use crate::printing::print_left;
use crate::socket::Socket;
use crate::station::Station;
use crate::stop_word::{StopWord, Watch};
use crate::task::{LaneStart, Thread};
use clerk::{Clerk, Journal};
use connections::Device;
use filer_lanes::{FilerEnd, LaneBuffers, end, open_lanes};
use granted_calls::Filer;
use lanes::Lane;
use metrics_server::MetricsServer;
use server_options::Options;
use std::alloc::{AllocError, Global};
use std::io::{self, Write};
use std::net::{Net, TcpListener, TcpStream};
use std::rt::Clock;
use std::sync::{Arc, Wait};
use std::thread::Threads;

/// A filer whose lanes run, and room for the lanes that come back and for what they leave.
#[derive(Drop)]
struct Running<R> {
    filer: Arc<Filer>,
    mail: Mail,
    threads: Vec<Thread<R>>,
    lanes: Vec<Lane<Socket, R>>,
    room: LaneBuffers,
    ghost none_back: { lanes.items ≡ [] },
    ghost wide: { (vec_len threads ≤ vec_capacity lanes) × (vec_len threads ≤ room.lanes) },
}

/// Gives each of these lanes what its thread will have beside it, for at most this many
/// connections.
fn man_all<R: Net + Drop>(
    rt: &R,
    alloc: Global,
    common: &Arc<Common>,
    most_open: usize,
    lanes: &mut Vec<Lane<Socket, R>>,
    tasks: &mut Vec<LaneStart<R>>,
    boxes: &mut Vec<Arc<Mailbox>>,
) -> Result<(), ServerFault>
    requires tasks { vec_len tasks.old + vec_len lanes.old ≤ vec_capacity tasks.old }
    requires boxes { vec_len boxes.old + vec_len lanes.old ≤ vec_capacity boxes.old }
    ensures none { OnOk result (lanes.new.items ≡ []) }
    ensures room { vec_capacity lanes.new ≡ vec_capacity lanes.old }
    ensures len { vec_len tasks.new ≤ vec_len tasks.old + vec_len lanes.old }
    ensures of { (filer : filers.Filer) → All (IsLaneOf filer) lanes.old.items
        → All (IsTaskFor filer) tasks.old.items → All (IsTaskFor filer) tasks.new.items }
    ensures seats { OnOk result (total seats_for tasks.new.items
        ≡ total seats_for tasks.old.items + total seats_of lanes.old.items) }
    ensures each { OnOk result ((weigh : Identity → ℕ)
        → total (identity_for weigh) tasks.new.items
        ≡ total (identity_for weigh) tasks.old.items + total (by_identity weigh) lanes.old.items) }
{
    while let Some(lane) = lanes.pop() {
        let common = Arc::try_clone(common)?;
        let station = match Station::new(alloc, rt, common, most_open) {
            Ok(station) => station,
            Err(refusal) => return Err(of_start(refusal)),
        };
        boxes.push_reserved(Arc::try_clone(&station.mailbox)?);
        tasks.push_reserved(LaneStart { lane, station });
    }
    Ok(())
}

/// Where what happens to a server with lines is left.
#[derive(Drop)]
struct Records {
    journal: Option<Journal>,
    /// The word to stop, where the server may be asked to.
    stop: Option<StopWord>,
    /// Whether metrics are told.
    has_metrics: bool,
}

/// What the threads of a server with these options share.
fn share(alloc: Global, options: &Options, records: Records) -> Result<Arc<Common>, AllocError> {
    let Records {
        journal,
        stop,
        has_metrics,
    } = records;
    match Arc::new(
        alloc,
        Common::new(alloc, options, journal, stop, has_metrics)?,
    ) {
        Ok(common) => Ok(common),
        Err(_refused) => Err(AllocError),
    }
}

/// Stops the threads that run, since one can't be started.
fn give_up<R: Threads + Drop>(
    rt: &R,
    mail: &Mail,
    threads: Vec<Thread<R>>,
    lanes: Vec<Lane<Socket, R>>,
) -> ServerFault
    requires { vec_len lanes + vec_len threads ≤ vec_capacity lanes }
{
    mail.stop();
    let _lanes = join_all(rt, threads, lanes);
    ServerFault::Thread
}

/// Opens a filer with the volumes of the options' plan and as many lanes as they have workers,
/// which read by what they offer, and starts their threads. Where one can't be started those that
/// run are stopped.
fn start<R>(
    rt: R,
    alloc: Global,
    options: &Options,
    records: Records,
) -> Result<Running<R>, ServerFault>
where
    R: Threads + Wait + Clock + Net + Copy + Drop + Send + 'static,
    ensures layout { IfOk result (λ r. IsLaidOut options.now.volumes options.now.plan
        (moment_of options.now.begun) (layout_in (arc_value r.filer))) }
    ensures verifier { IfOk result (λ r. (run : ℕ) → form_of options.now.offer ≡ OfRun run
        → verifier_in (arc_value r.filer) ≡ verifier_of run) }
    ensures threads { IfOk result (λ r. AreThreadsOf (arc_value r.filer) r.threads.items) }
    ensures offer { IfOk result (λ r. AllServe options.now.offer r.threads.items) }
    ensures count { IfOk result (λ r. length r.threads.items ≡ options.now.workers) }
{
    let layout = layout_of(alloc, options.volumes, options.plan, options.begun)?;
    let (workers, offer) = (options.workers, options.offer);
    let most_open = options.admission.most_open as usize;
    let lanes = Vec::with_capacity(alloc, workers)?;
    let mut threads = Vec::with_capacity(alloc, workers)?;
    let mut tasks = Vec::with_capacity(alloc, workers)?;
    let mut boxes = Vec::with_capacity(alloc, workers)?;
    let room = LaneBuffers::new(alloc, workers)?;
    let common = share(alloc, options, records)?;
    let verifier = verifier_for(&rt, offer);
    let (filer, mut lanes) = open_lanes(
        rt, alloc, offer, layout, verifier, workers, most_open, lanes,
    )?;
    man_all(
        &rt, alloc, &common, most_open, &mut lanes, &mut tasks, &mut boxes,
    )?;
    let mail = Mail { boxes, common };
    if !start_all(rt, &mut tasks, &mut threads) {
        return Err(give_up(&rt, &mail, threads, lanes));
    }
    Ok(Running {
        filer,
        mail,
        threads,
        lanes,
        room,
    })
}

/// Serves as many connections of a listener as the options say to their ends, and stops the lanes.
/// Where one can't be accepted no more are, and those that are open are closed. What comes back is
/// what is left of a filer that was served to its end, by the lanes that its threads were started
/// with.
fn run<R, W, E>(
    rt: &R,
    listener: TcpListener,
    options: &Options,
    running: Running<R>,
    out: &mut W,
    scribe: Option<(Watch, Scribe<'_, '_, E>)>,
) -> Result<FilerEnd, ServerFault>
where
    R: Threads + Wait + Clock + Copy + Drop + Send,
    R: Net<Listener = TcpListener, Stream = TcpStream>,
    W: Write,
    E: Write,
    requires { AreThreadsOf (arc_value running.filer) running.threads.items }
    ensures { let F = arc_value running.filer in IfOk result (λ left.
        (lanes : List (laned.Lane sockets.Socket R ⟦<Socket as Device>⟧))
        × AreOfThreads running.threads.items lanes
        × IsEndOf F lanes left
        × length lanes ≡ length running.threads.items
        × ((offer : offers.Offer) → AllServe offer running.threads.items
        → ∥ ThreadedHeadline (layout_in F) (verifier_in F) offer lanes left ∥₁)) }
{
    let Running {
        filer,
        mail,
        threads,
        lanes,
        room,
    } = running;
    let accepted = take_all(rt, &mail, listener, options, out, scribe);
    mail.stop();
    let lanes = join_all(rt, threads, lanes);
    match accepted {
        Ok(()) => Ok(end(rt, filer, lanes, room)),
        Err(fault) => Err(fault),
    }
}

/// Serves the connections of a listener: prints `listening` and the address that it is bound to,
/// takes as many connections as the options say, waits for their ends, stops the lanes, and closes
/// the filer, and prints `left` and how many messages weren't finished. Where the options name no
/// number of connections it goes on for as long as the program runs. What is left comes back, of a
/// filer with the volumes, the verifier and the lanes that the options say: the headline with
/// threads holds of it.
pub fn serve<R, W>(
    rt: R,
    alloc: Global,
    listener: TcpListener,
    options: &Options,
    out: &mut W,
) -> Result<FilerEnd, ServerFault>
where
    R: Threads + Wait + Clock + Net<Listener = TcpListener, Stream = TcpStream>,
    R: Copy + Drop + Send + 'static,
    W: Write,
    ensures headline { IfOk result
        (HasServed R ⟦<Socket as Device>⟧ options.now) }
    ensures printed { IfOk result (λ left.
        EndsWith W.contents out.new (left_line (unfinished_in left))) }
{
    let records = Records {
        journal: None,
        stop: None,
        has_metrics: false,
    };
    let running = start(rt, alloc, options, records)?;
    let none: Option<(Watch, Scribe<'_, '_, io::Sink>)> = None;
    let end = run(&rt, listener, options, running, out, none)?;
    print_left(&end, out)?;
    Ok(end)
}

/// The same, and tells by a second writer the lines of the start that are given, and then what
/// people want to know of connections: as the options say, and always where connections are closed
/// for want of a place or can't be accepted. Whatever becomes of that writer, the connections are
/// served. Metrics are told beside it where there is somebody who tells them. It goes on until it
/// is asked to stop: then the listener is closed, what was read is finished, and connections are
/// closed whose replies went out, or after five seconds.
pub fn serve_told<R, W, E>(
    rt: R,
    alloc: Global,
    listener: TcpListener,
    options: &Options,
    opening: &str,
    metrics: Option<MetricsServer>,
    out: &mut W,
    err: &mut E,
) -> Result<FilerEnd, ServerFault>
where
    R: Threads + Wait + Clock + Net<Listener = TcpListener, Stream = TcpStream>,
    R: Copy + Drop + Send + 'static,
    W: Write,
    E: Write,
    ensures headline { IfOk result
        (HasServed R ⟦<Socket as Device>⟧ options.now) }
    ensures printed { IfOk result (λ left.
        EndsWith W.contents out.new (left_line (unfinished_in left))) }
{
    let clerk = Clerk::new(alloc, &rt).map_err(|error| of_clerk(&error))?;
    let journal = clerk
        .journal(alloc, options.log)
        .map_err(|error| of_clerk(&error))?;
    let (watch, stop) = Watch::new(alloc, &rt, &listener).map_err(|error| of_clerk(&error))?;
    let records = Records {
        journal: Some(journal),
        stop: Some(stop),
        has_metrics: metrics.is_some(),
    };
    let running = start(rt, alloc, options, records)?;
    let scribe = Scribe {
        clerk,
        opening,
        err,
        alloc,
        metrics,
    };
    let scribe = Some((watch, scribe));
    let end = run(&rt, listener, options, running, out, scribe)?;
    print_left(&end, out)?;
    Ok(end)
}
