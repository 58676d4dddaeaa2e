//! A record is fed to an engine.

use affinity::{AggregateSpec, Layout, VolumeSpec};
use engine::{Engine, Event};
use nfs_values::ConnectionNumber;
use std::alloc::Global;

/// How many bytes a new engine answers to a record: 28 to a NULL call.
pub fn reply_len(alloc: Global, record: &[u8]) -> Option<usize> {
    let volumes = [VolumeSpec::new(0, 4)];
    let layout = Layout::new(alloc, &[AggregateSpec { spare: 0 }], &volumes).ok()?;
    let mut engine = Engine::new(alloc, layout, [0; 8], 1).ok()?;
    let connection = ConnectionNumber(0);
    engine.step(Event::Open).ok()?;
    engine
        .step(Event::Feed {
            connection,
            bytes: record,
        })
        .ok()?;
    Some(engine.output(connection.0).len())
}
