//! Turns and tends of two workers in one thread, some of them in the midst of a turn.

use crate::opening::{Opened, open};
use crate::rows::{Row, came, play};
use crate::station::{Came, Station, open_pair};
use granted_calls::{Gate, Place, Stage};
use std::mem;
use std::process::Abort;
use std::sync::{Mutex, Wait};

/// What two workers of a filer do.
pub(crate) struct Scene {
    /// What the first does, by one table after another.
    pub(crate) before: &'static [&'static [Row]],
    /// Then it makes a turn at a moment, which comes to this.
    pub(crate) turn: (u32, Came),
    /// What the second does in the midst of that turn, once its call has begun.
    pub(crate) midst: &'static [Row],
    /// What the second does afterwards.
    pub(crate) second: &'static [Row],
    /// And then the first.
    pub(crate) first: &'static [Row],
}

/// A second worker, which plays its rows once, after the first begin that it is told of.
struct Looking<'r, 'a, R> {
    rt: &'r R,
    rows: &'r [Row],
    before: Mutex<Option<Station<'a>>>,
    after: Mutex<Option<Station<'a>>>,
}

impl<R: Abort + AllocGlobal + Wait> Gate for Looking<'_, '_, R> {
    fn pass(&self, place: Place) {
        if place.stage != Stage::Begun {
            return;
        }
        let taken = self.before.lock(self.rt).take();
        let Some(mut station) = taken else {
            return;
        };
        play(self.rt, &mut station, self.rows);
        *self.after.lock(self.rt) = Some(station);
    }
}

/// A turn of the first, in whose midst the second plays its rows.
fn meet<'a, R: Abort + AllocGlobal + Wait>(
    rt: &R,
    first: &mut Station<'a>,
    second: Station<'a>,
    scene: &Scene,
) -> Station<'a> {
    let looking = Looking {
        rt,
        rows: scene.midst,
        before: Mutex::new(Some(second)),
        after: Mutex::new(None),
    };
    came(rt, first.turn(rt, &looking, scene.turn.0), scene.turn.1);
    let Looking {
        rt: _,
        rows: _,
        before: _,
        after,
    } = looking;
    after.into_inner().expect(rt, "a call that began")
}

/// Plays a scene.
pub(crate) fn run<R: Abort + AllocGlobal + Wait>(rt: &R, scene: &Scene) {
    let Opened {
        filer,
        seat,
        pass,
        reader,
    } = open(rt);
    let (mut first, second) = open_pair(rt, &filer, seat, pass, reader);
    for rows in scene.before {
        play(rt, &mut first, rows);
    }
    let mut second = meet(rt, &mut first, second, scene);
    play(rt, &mut second, scene.second);
    play(rt, &mut first, scene.first);
    mem::forget((first, second));
    mem::forget(filer);
}
