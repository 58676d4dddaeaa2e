//! What the clerk and the metrics ask of a server.

use crate::accepting::is_prepared;
use crate::crew::Mail;
use crate::mailbox::Arrival;
use crate::usage::inodes;
use admin_client::census;
use clerk::{Inquiry, Used};
use metrics::VolumeUse;
use rpc_msg::HandleForm;
use statistics::Tally;
use std::alloc::Global;
use std::net::{Net, TcpListener, TcpStream};
use std::sync::Wait;
use std::time::Duration;

/// How many seconds the clerk waits for an answer.
pub(crate) const PATIENCE: u64 = 5;

/// Who asks a server whose lanes these are.
#[derive(Drop)]
pub(crate) struct Asked<'a, R> {
    pub(crate) rt: &'a R,
    pub(crate) alloc: Global,
    pub(crate) mail: &'a Mail,
    /// How its handles are spelled.
    pub(crate) form: HandleForm,
    /// How many seconds an answer is waited for.
    pub(crate) patience: u64,
}

/// Both ends of a connection over the loopback, if it can be had. Who else connects meanwhile is
/// refused.
fn connect_both<R>(rt: &R) -> Option<(TcpStream, TcpStream)>
where
    R: Net<Listener = TcpListener, Stream = TcpStream>,
{
    let listener = TcpListener::bind(rt, "127.0.0.1:0").ok()?;
    let near = TcpStream::connect(rt, listener.local_addr().ok()?).ok()?;
    let (far, peer) = listener.accept().ok()?;
    if near.local_addr().ok()? != peer {
        return None;
    }
    Some((near, far))
}

impl<R> Asked<'_, R>
where
    R: Wait + Net<Listener = TcpListener, Stream = TcpStream>,
{
    /// A connection to the first lane, which nobody is told of, and which isn't one of those that
    /// are asked for.
    fn connect(&self) -> Option<TcpStream> {
        let mailbox = self.mail.boxes.first()?;
        let (near, far) = connect_both(self.rt)?;
        let patience = Some(Duration::from_secs(self.patience));
        near.set_read_timeout(patience).ok()?;
        near.set_write_timeout(patience).ok()?;
        if !is_prepared(&far) {
            return None;
        }
        let arrival = Arrival {
            stream: far,
            peer: None,
        };
        self.mail.common.ends.come();
        if !mailbox.leave(self.rt, arrival) {
            self.mail.common.ends.add();
            return None;
        }
        Some(near)
    }

    /// The blocks and inodes of each volume, and how many of them are in use.
    pub(crate) fn ask(&self) -> Option<Vec<VolumeUse>> {
        let mut stream = self.connect()?;
        let census = census(&mut stream, self.alloc).ok()?;
        let mut volumes = Vec::with_capacity(self.alloc, census.volumes.len()).ok()?;
        for count in &census.volumes {
            let volume = count.volume.0;
            let inodes = inodes(&mut stream, self.alloc, volume, self.form)?;
            let of_a_volume = VolumeUse {
                volume,
                blocks: count.total,
                used_blocks: count.used,
                inodes: inodes.total,
                used_inodes: inodes.used,
            };
            volumes.push(of_a_volume).ok()?;
        }
        Some(volumes)
    }
}

impl<R> Inquiry for Asked<'_, R>
where
    R: Wait + Net<Listener = TcpListener, Stream = TcpStream>,
{
    fn tallies(&self) -> &[Tally] {
        &self.mail.common.tallies
    }

    fn open(&self) -> u64 {
        self.mail.common.ends.open()
    }

    fn used(&self) -> Option<Used> {
        let mut used = Used {
            blocks: 0,
            inodes: 0,
        };
        for volume in &self.ask()? {
            used.blocks = used.blocks.saturating_add(volume.used_blocks);
            used.inodes = used.inodes.saturating_add(volume.used_inodes);
        }
        Some(used)
    }
}
