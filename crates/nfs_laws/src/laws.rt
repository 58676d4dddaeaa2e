//! What holds of the definitions.

ghost use Rattle.std.specs.Prelude.{◌≡◌, ◌≢◌, true, false, Some, None, Result, ℕ};
ghost use Rattle.std.specs.Prelude.{List, [], ◌∷◌, ◌++◌, length, nat_lt, slice_get};
ghost use Rattle.std.specs.Ordering.{nat_cmp};
ghost use Rattle.std.specs.FinMap.{get};
ghost use Rattle.std.specs.FinSet.{FinSet};
ghost use Rattle.nfs_model.specs.Types.{Call, Caller, Moment, Kind, Listed};
ghost use Rattle.nfs_model.specs.Types.{SetAttributes, Status, Failed};
ghost use Rattle.nfs_model.specs.Tree.{Layout};
ghost use Rattle.nfs_model.specs.Server.{opening, FileNode, DirectoryNode, SpecialNode, Node};
ghost use Rattle.nfs_model.specs.Server.{File, Directory, Special, VolumeState, Server};
ghost use Rattle.nfs_model.specs.Locate.{Effect};
ghost use Rattle.nfs_model.specs.Serial.Absent.{absent_parts};
ghost use Rattle.nfs_model.specs.Serial.Rights.{Protection, protection, Rights};
ghost use Rattle.nfs_model.specs.Serial.Access.{bits_given};
ghost use Rattle.nfs_model.specs.Serial.Setattr.{set_taken};
ghost use Rattle.nfs_model.specs.Serial.Write.{clears_set_ids, file_taken};
ghost use Rattle.nfs_model.specs.Serial.Create.{Maker, over_taken, new_attributes};
ghost use Rattle.nfs_model.specs.Serial.Readdirplus.{listed_plus, listed_for};
ghost use Rattle.nfs_model.specs.Serial.MountBelow.{search_refusal};
ghost use Rattle.nfs_model.specs.Serial.Permission.{refusal, write_refusal};
ghost use Rattle.nfs_model.specs.Serial.Permission.{permitted, permitted_two};
ghost use Rattle.nfs_model.specs.Home.{home};
ghost use Rattle.nfs_model.specs.Serial.Step.{serve, stay};
ghost use Rattle.nfs_model.specs.Serial.AtOnce.{answer_without_home};
ghost use Rattle.nfs_model.specs.Parts.{IsBatch};
ghost use Rattle.nfs_model.specs.Moves.{batch, lowest_batch};
ghost use Rattle.nfs_model.specs.World.{Setup, World, IsScan};
ghost use Rattle.nfs_model.specs.Events.Feed.{feeding, Feeds};
ghost use Rattle.nfs_model.specs.Events.Refusals.{Event, Done, takes_input};
ghost use Rattle.nfs_model.specs.Events.Step.{Events, Runs};
ghost use Rattle.nfs_model.specs.Headline.{Kept, opening_world};
ghost use Rattle.nfs_model.specs.Agreed.{IsAgreed};
ghost use Rattle.nfs_model.specs.Replay.{step_of, server_after, replay, FinishedCall};
ghost use Rattle.nfs_model.specs.Memo.{Change};
ghost use Rattle.nfs_model.specs.Serial.Once.{change_of};
ghost use Rattle.nfs_laws.specs.Repeated.{Place, memos_of, places_of, volume_of, is_success};
ghost use Rattle.nfs_laws.specs.Repeated.{remembered_in, AreElsewhere, IsAgain, serve_forgetting};
ghost use Rattle.nfs_laws.specs.Links.{NamesAgree};
ghost use Rattle.nfs_laws.specs.Permissions.{refused, remembered_of, IsFree, bits_of};
ghost use Rattle.nfs_laws.specs.Permissions.{free_attributes, MayNotWrite, MayNotChange};
ghost use Rattle.nfs_laws.specs.Permissions.{AreAskedBy, node_of, IsAsWas};
ghost use Rattle.nfs_laws.specs.Sizes.{HaveSizes};
ghost use Rattle.nfs_laws.specs.Undisturbed.{WorksNone};
ghost use Rattle.nfs_laws.specs.Walk.{Walks};

/// A run begins within the headline.
pub fn opening_meets_headline()
    ensures { (setup : Setup) → Kept setup (opening_world setup) }
{}

/// A call without a home affinity reads no state and changes nothing.
pub fn without_home_stays()
    ensures { (layout : Layout) (server : Server) (caller : Caller) (moment : Moment)
        (call : Call)
        → length layout.volumes ≡ length server.volumes
        → home layout call ≡ None
        → serve server call caller moment ≡ stay server (answer_without_home layout call) }
{}

/// An event keeps the headline, refused or not, for any number of workers, where the calls that run
/// after it don't disturb each other.
pub fn events_keep_headline()
    ensures { (setup : Setup) (old : World) (event : Event) (answer : Result Done ℕ)
        (new : World)
        → IsScan setup.codec
        → Kept setup old
        → IsAgreed setup new
        → Events setup old event answer new
        → Kept setup new }
{}

/// Where no call is worked or finished, the calls that run don't disturb each other: of an engine's
/// events only Work and Finish leave that to be shown.
pub fn other_events_agree()
    ensures { (setup : Setup) (old : World) (event : Event) (answer : Result Done ℕ)
        (new : World)
        → IsScan setup.codec
        → WorksNone event
        → Kept setup old
        → Events setup old event answer new
        → IsAgreed setup new }
{}

/// A run goes on by one event.
pub fn runs_go_on()
    ensures { (setup : Setup) (old : World) (events : List Event) (middle : World)
        (event : Event) (answer : Result Done ℕ) (new : World)
        → Runs setup old events middle
        → Events setup middle event answer new
        → Runs setup old (events ++ event ∷ []) new }
{}

/// What a feed does can be told byte by byte.
pub fn feeds_are_walks()
    ensures walks { (setup : Setup) (w : World) (connection : ℕ) (bytes : List ℕ)
        (taken stop : ℕ) (new : World)
        → IsScan setup.codec
        → takes_input setup (slice_get w.connections connection) ≡ true
        → Feeds setup (feeding connection bytes taken stop) w new
        → Walks setup (feeding connection bytes taken stop) w new }
    ensures feeds { (setup : Setup) (w : World) (connection : ℕ) (bytes : List ℕ)
        (taken stop : ℕ) (new : World)
        → IsScan setup.codec
        → takes_input setup (slice_get w.connections connection) ≡ true
        → Walks setup (feeding connection bytes taken stop) w new
        → Feeds setup (feeding connection bytes taken stop) w new }
{}

/// What Fetch and Cull take is a batch: at most 64 numbers of one range, ascending, whatever the
/// blocks of a range.
pub fn batches_are_of_one_range()
    ensures fetched { (size range : ℕ) (blocks : FinSet nat_cmp)
        → IsBatch size range (batch size range blocks) }
    ensures culled { (size : ℕ) (blocks : FinSet nat_cmp)
        → (range : ℕ) × IsBatch size range (lowest_batch size blocks) }
{}

/// No call changes how many blocks a range of a volume has: it is as its layout says.
pub fn sizes_stay()
    ensures { (layout : Layout) (verifier : List ℕ) (calls : List FinishedCall)
        → HaveSizes layout (server_after (opening layout verifier) calls) }
{}

/// A call that comes again is told the first reply, and leaves the server as it is: where the first
/// was done and remembered, and no call between was remembered in its place (RFC 1813 section 4.5).
pub fn repeated_is_told()
    ensures told { (server : Server) (first : FinishedCall) (between : List FinishedCall)
        (again : FinishedCall) (place : Place)
        → remembered_in server first ≡ Some place
        → AreElsewhere place (step_of server first).server between
        → IsAgain first again
        → (step_of (server_after server (first ∷ between)) again).reply
        ≡ (step_of server first).reply }
    ensures left { (server : Server) (first : FinishedCall) (between : List FinishedCall)
        (again : FinishedCall) (place : Place)
        → remembered_in server first ≡ Some place
        → AreElsewhere place (step_of server first).server between
        → IsAgain first again
        → (step_of (server_after server (first ∷ between)) again).server
        ≡ server_after server (first ∷ between) }
    ensures replayed { (server : Server) (before between after : List FinishedCall)
        (first again : FinishedCall) (place : Place)
        → remembered_in (server_after server before) first ≡ Some place
        → AreElsewhere place (step_of (server_after server before) first).server between
        → IsAgain first again
        → replay server (before ++ first ∷ (between ++ again ∷ after))
        ≡ replay server (before ++ first ∷ between)
        ++ (step_of (server_after server before) first).reply
        ∷ replay (server_after server (before ++ first ∷ between)) after }
{}

/// What is remembered in a place stays but where a call is remembered there, and a volume keeps as
/// many places. A call whose reply isn't remembered changes none.
pub fn memos_stay()
    ensures elsewhere { (server : Server) (call : FinishedCall) (place : Place)
        → remembered_in server call ≢ Some place
        → slice_get (memos_of (step_of server call).server place.volume) place.number
        ≡ slice_get (memos_of server place.volume) place.number }
    ensures unremembered { (server : Server) (call : FinishedCall) (volume : ℕ)
        → remembered_in server call ≡ None
        → memos_of (step_of server call).server volume ≡ memos_of server volume }
    ensures places { (server : Server) (calls : List FinishedCall) (volume : ℕ)
        → length (memos_of (server_after server calls) volume)
        ≡ length (memos_of server volume) }
    ensures opening { (layout : Layout) (verifier : List ℕ) (calls : List FinishedCall)
        (volume : ℕ)
        → length (memos_of (server_after (opening layout verifier) calls) volume)
        ≡ places_of layout volume }
{}

/// A call that doesn't succeed changes nothing.
pub fn failures_change_nothing()
    ensures { (server : Server) (call : FinishedCall)
        → is_success (step_of server call).reply ≡ false
        → (step_of server call).server ≡ server }
{}

/// Where a volume has no places, its calls are served as if nothing were ever remembered.
pub fn without_places_none_is_told()
    ensures { (server : Server) (call : Call) (caller : Caller) (moment : Moment)
        → ((change : Change) → change_of call ≡ Some change
        → memos_of server (volume_of change) ≡ [])
        → serve server call caller moment ≡ serve_forgetting server call caller moment }
{}

/// To uid 0 no right is missing: it is refused nothing, unless it may change nothing.
pub fn root_is_refused_nothing()
    ensures asked { (caller : Caller) (call : Call) (volume : VolumeState) (fileid other : ℕ)
        → caller.credential.uid ≡ 0
        → caller.reads_only ≡ false
        → refusal caller call volume fileid other ≡ None }
    ensures served { (server : Server) (call : Call) (caller : Caller)
        → caller.credential.uid ≡ 0
        → caller.reads_only ≡ false
        → refused server call caller ≡ None }
    ensures mounts { (caller : Caller) (directory : DirectoryNode)
        → caller.credential.uid ≡ 0
        → caller.reads_only ≡ false
        → search_refusal caller directory ≡ None }
{}

/// A call that is refused changes nothing, and is told why: unless it comes again, and what it was
/// told first is remembered.
pub fn refused_calls_change_nothing()
    ensures left { (server : Server) (call : Call) (caller : Caller) (moment : Moment)
        (status : Status)
        → refused server call caller ≡ Some status
        → (serve server call caller moment).server ≡ server }
    ensures told { (server : Server) (call : Call) (caller : Caller) (moment : Moment)
        (status : Status)
        → refused server call caller ≡ Some status
        → remembered_of server call caller moment ≡ None
        → serve server call caller moment
        ≡ stay server (Failed status (absent_parts call)) }
{}

/// A caller that isn't checked, and may change things, is refused nothing, and what it asks is done
/// as it asks it.
pub fn unchecked_callers_are_free()
    ensures served { (server : Server) (call : Call) (caller : Caller)
        → IsFree caller
        → refused server call caller ≡ None }
    ensures mounts { (caller : Caller) (directory : DirectoryNode)
        → IsFree caller
        → search_refusal caller directory ≡ None }
    ensures one { (caller : Caller) (call : Call) (run : VolumeState → ℕ → Effect)
        (volume : VolumeState) (fileid : ℕ)
        → IsFree caller
        → permitted caller call run volume fileid ≡ run volume fileid }
    ensures two { (caller : Caller) (call : Call) (run : VolumeState → ℕ → ℕ → Effect)
        (volume : VolumeState) (from to : ℕ)
        → IsFree caller
        → permitted_two caller call run volume from to ≡ run volume from to }
    ensures sets { (caller : Caller) (set : SetAttributes) (node : Node)
        → caller.checked ≡ false
        → set_taken caller set node ≡ set }
    ensures over { (caller : Caller) (set : SetAttributes)
        → caller.checked ≡ false
        → over_taken caller set ≡ set }
    ensures writes { (caller : Caller) (file : FileNode)
        → caller.checked ≡ false
        → file_taken caller file ≡ file }
    ensures clears { (caller : Caller) (file : FileNode)
        → caller.checked ≡ false
        → clears_set_ids caller file ≡ false }
    ensures written { (caller : Caller) (file : Protection)
        → IsFree caller
        → write_refusal caller file ≡ None }
    ensures makes { (set : SetAttributes) (kind : Kind) (mode : ℕ) (maker : Maker)
        (moment : Moment)
        → maker.caller.checked ≡ false
        → new_attributes set kind mode maker moment
        ≡ free_attributes set mode maker moment }
    ensures lists { (caller : Caller) (volume : VolumeState) (directory : DirectoryNode)
        (entry : Listed)
        → caller.checked ≡ false
        → listed_for caller volume directory entry ≡ listed_plus volume entry }
    ensures rights { (caller : Caller) (asked : ℕ) (kind : Kind) (rights : Rights)
        → IsFree caller
        → bits_given caller asked kind rights ≡ bits_of asked kind rights }
{}

/// At any time of a run, the fileid of a node is below the next one that is given.
pub fn fileids_lie_below_the_next()
    ensures { (layout : Layout) (verifier : List ℕ) (calls : List FinishedCall)
        (volume fileid : ℕ) (state : VolumeState) (node : Node)
        → slice_get (server_after (opening layout verifier) calls).volumes volume ≡ Some state
        → get state.nodes fileid ≡ Some node
        → nat_lt fileid state.next ≡ true }
{}

/// At any time of a run, each node of a volume has just as many names as its links say, a directory
/// one, the root none; and what is named is there (nlink of fattr3, RFC 1813 section 2.6).
pub fn names_and_links_agree()
    ensures { (layout : Layout) (verifier : List ℕ) (calls : List FinishedCall)
        (volume : ℕ) (state : VolumeState)
        → slice_get (server_after (opening layout verifier) calls).volumes volume ≡ Some state
        → NamesAgree state }
{}

/// While strangers alone call, a directory keeps its names, its mode, its owner and its group, as
/// long as it is there: callers that are checked, are neither uid 0 nor its owner, and haven't both
/// w and x of it. So it is on any server whose fileids are below the next one, and at any time of a
/// run.
pub fn strangers_change_no_names()
    ensures any { (server : Server) (volume fileid : ℕ) (state : VolumeState)
        (directory : DirectoryNode) (calls : List FinishedCall)
        → slice_get server.volumes volume ≡ Some state
        → get state.nodes fileid ≡ Some (Directory directory)
        → nat_lt fileid state.next ≡ true
        → AreAskedBy (MayNotChange (protection (Directory directory))) calls
        → IsAsWas (Directory directory) (node_of (server_after server calls) volume fileid) }
    ensures run { (layout : Layout) (verifier : List ℕ) (before after : List FinishedCall)
        (volume fileid : ℕ) (directory : DirectoryNode)
        → node_of (server_after (opening layout verifier) before) volume fileid
        ≡ Some (Directory directory)
        → AreAskedBy (MayNotChange (protection (Directory directory))) after
        → IsAsWas (Directory directory)
        (node_of (server_after (opening layout verifier) (before ++ after)) volume fileid) }
{}

/// While strangers alone call, a file keeps its bytes, its mode, its owner and its group, as long
/// as it is there: callers that are checked, are neither uid 0 nor its owner, and haven't w of it.
pub fn strangers_change_no_bytes()
    ensures any { (server : Server) (volume fileid : ℕ) (state : VolumeState) (file : FileNode)
        (calls : List FinishedCall)
        → slice_get server.volumes volume ≡ Some state
        → get state.nodes fileid ≡ Some (File file)
        → nat_lt fileid state.next ≡ true
        → AreAskedBy (MayNotWrite (protection (File file))) calls
        → IsAsWas (File file) (node_of (server_after server calls) volume fileid) }
    ensures run { (layout : Layout) (verifier : List ℕ) (before after : List FinishedCall)
        (volume fileid : ℕ) (file : FileNode)
        → node_of (server_after (opening layout verifier) before) volume fileid
        ≡ Some (File file)
        → AreAskedBy (MayNotWrite (protection (File file))) after
        → IsAsWas (File file)
        (node_of (server_after (opening layout verifier) (before ++ after)) volume fileid) }
{}

/// While strangers alone call, what is neither a file nor a directory keeps its kind, its text, its
/// mode, its owner and its group, as long as it is there: callers that are checked, are neither uid
/// 0 nor its owner, and haven't w of it.
pub fn strangers_change_no_texts()
    ensures any { (server : Server) (volume fileid : ℕ) (state : VolumeState)
        (node : SpecialNode) (calls : List FinishedCall)
        → slice_get server.volumes volume ≡ Some state
        → get state.nodes fileid ≡ Some (Special node)
        → nat_lt fileid state.next ≡ true
        → AreAskedBy (MayNotWrite (protection (Special node))) calls
        → IsAsWas (Special node) (node_of (server_after server calls) volume fileid) }
    ensures run { (layout : Layout) (verifier : List ℕ) (before after : List FinishedCall)
        (volume fileid : ℕ) (node : SpecialNode)
        → node_of (server_after (opening layout verifier) before) volume fileid
        ≡ Some (Special node)
        → AreAskedBy (MayNotWrite (protection (Special node))) after
        → IsAsWas (Special node)
        (node_of (server_after (opening layout verifier) (before ++ after)) volume fileid) }
{}
