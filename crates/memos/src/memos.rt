//! The places of a volume.

ghost use Rattle.std.specs.Prelude.{◌≡◌, IfOk, IsOk, None, replicate};
ghost use Rattle.std.specs.Option.{option_map};
ghost use Rattle.nfs_model.specs.Serial.Once.{answer_told, memos_after, told_before};
ghost use Rattle.nfs_values.specs.Answer.{answer_of, procedure_of};
ghost use Rattle.nfs_values.specs.Call.{call_of};
ghost use Rattle.nfs_values.specs.Caller.{caller_of};
ghost use Rattle.nfs_values.specs.Moment.{moment_of};
ghost use Rattle.memos.specs.Kept.{memos_kept};
ghost use Rattle.memos.specs.Told.{procedure_told};

use crate::change::is_remembered;
use crate::place::{Place, place_of};
use crate::results::{Remembered, is_kept};
use nfs_values::{Answer, Call, Caller, Moment, VolumeNumber};
use std::alloc::{AllocError, Global};
use std::marker::Model;

/// Places for the replies of a volume's calls that may come again (RFC 1813 section 4.5): those
/// that change names or attributes. A place keeps the newest call of those that belong there.
pub struct Memos {
    places: Vec<Place>,
}

// By hand, so that crates above have no proof of the drop of each of its parts.
impl Drop for Memos {
    fn drop(self) {
        let Memos { places: _ } = self;
    }
}

impl Model for Memos {
    ghost use Rattle.std.specs.Prelude.{List, Option};
    ghost use Rattle.std.specs.Coded.{coded_list, coded_option};
    ghost use Rattle.nfs_model.specs.Memo.{Memo};
    ghost use Rattle.nfs_model.specs.volume.Codes.{coded_memo};
    ghost use Rattle.memos.specs.Kept.{memos_kept};

    ghost Value = { List (Option Memo) };

    ghost coded = { coded_list (coded_option coded_memo) };

    ghost view = { λ m. memos_kept m.places.items };
}

/// What a caller was told of this very call, where that is in its place.
fn find_in<'a>(
    places: &'a [Place],
    caller: &Caller,
    call: &Call,
    moment: Moment,
) -> Option<Remembered<'a>>
    ensures { result ≡ told_before (memos_kept places.now) (caller_of caller.now)
        (call_of call.now) (moment_of moment) }
{
    if !is_remembered(call) {
        return None;
    }
    let at = place_of(caller, places.len())?;
    let place = &places[at];
    if !place.is_of(caller, call, moment) {
        return None;
    }
    Some(Remembered::new(&place.results))
}

/// Keeps what a call was answered in its place.
fn remember_in(places: &mut [Place], caller: &Caller, call: &Call, moment: Moment, answer: &Answer)
    ensures { memos_kept places.new ≡ memos_after (memos_kept places.old) (caller_of caller.now)
        (call_of call.now) (moment_of moment) (answer_of answer.now) }
{
    if !is_kept(answer) {
        return;
    }
    let Some(at) = place_of(caller, places.len()) else {
        return;
    };
    let place = &mut places[at];
    if place.change.put(call) {
        place.caller = *caller;
        place.moment = moment;
        place.results.put(answer);
    }
}

impl Memos {
    /// This many places, of 2,032 bytes each, with nothing remembered; 0 take no memory.
    pub fn new(alloc: Global, places: u32) -> Result<Memos, AllocError>
        ensures memos { IfOk result (λ memos. memos ≡ replicate places None) }
        ensures none { places ≡ 0 → IsOk result }
    {
        if places == 0 {
            let places = Vec::new(alloc);
            return Ok(Memos { places });
        }
        let places = vec![in alloc; Place::empty(); places as usize]?;
        Ok(Memos { places })
    }

    /// What a caller was told of this very call, if that is remembered and at most 120 seconds old
    /// (our profile).
    pub fn find(&self, caller: &Caller, call: &Call, moment: Moment) -> Option<Remembered<'_>>
        ensures { result ≡ told_before self.now (caller_of caller.now) (call_of call.now)
            (moment_of moment) }
    {
        find_in(&self.places, caller, call, moment)
    }

    /// The answer that a caller was given to this very call, if that is remembered and at most 120
    /// seconds old (our profile), in a volume of this number.
    pub fn told(
        &self,
        caller: &Caller,
        call: &Call,
        moment: Moment,
        volume: VolumeNumber,
    ) -> Option<Answer>
        ensures told { option_map answer_of result ≡ option_map (answer_told volume.0)
            (told_before self.now (caller_of caller.now) (call_of call.now) (moment_of moment)) }
        ensures procedure { option_map procedure_of result
            ≡ option_map (procedure_told (call_of call.now))
            (told_before self.now (caller_of caller.now) (call_of call.now) (moment_of moment)) }
    {
        match self.find(caller, call, moment) {
            None => None,
            Some(found) => Some(found.answer(call, volume)),
        }
    }

    /// Keeps what a call that succeeded was answered; what isn't to be kept changes nothing. It
    /// takes no memory.
    pub fn remember(&mut self, caller: &Caller, call: &Call, moment: Moment, answer: &Answer)
        ensures { self.new ≡ memos_after self.old (caller_of caller.now) (call_of call.now)
            (moment_of moment) (answer_of answer.now) }
    {
        remember_in(&mut self.places, caller, call, moment, answer);
    }
}
