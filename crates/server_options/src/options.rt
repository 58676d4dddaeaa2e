//! What a server is asked to do.

ghost use Rattle.std.specs.Prelude.{◌≤◌, ◌<◌};

use crate::admission::{Admission, MOST_OPEN, WhenFull};
use crate::idle::IdleTime;
use crate::peer_rules::PeerRules;
use crate::plan::VolumePlan;
use affinity::MOST_VOLUMES;
use clerk::Period;
use nfs_values::Moment;
use rpc_msg::Offer;
use std::net::SocketAddr;
use tends::MOST_WORKERS;

/// Where a server listens, how many volumes (1 to 8) and workers (1 to 64) it has, after how many
/// connections it ends, if after any, how many may be open, what it offers, to whom, and what
/// callers may do, what its volumes have at the start and when that is, by their roots, after how
/// long a connection is idle, if ever, how many bytes of replies may be owed to all connections
/// together, if that is bounded, whether each connection is told of, and how often statistics are,
/// if they are.
#[derive(Clone, Copy)]
pub struct Options {
    pub address: SocketAddr,
    pub volumes: usize,
    pub workers: usize,
    pub connections: Option<u64>,
    pub admission: Admission,
    pub offer: Offer,
    pub rules: PeerRules,
    pub plan: VolumePlan,
    pub begun: Moment,
    pub idle: Option<IdleTime>,
    pub most_owed: Option<u64>,
    pub log: bool,
    pub statistics: Option<Period>,
    pub ghost some_volume: { 0 < volumes },
    pub ghost volumes_fit: { volumes ≤ 8 },
    pub ghost some_worker: { 0 < workers },
    pub ghost workers_fit: { workers ≤ 64 },
}

impl Options {
    ghost use Rattle.std.specs.Prelude.{◌≡◌, IfNone, IfSome, None, false};
    ghost use Rattle.nfs_model.specs.Server.{start_of_times};
    ghost use Rattle.nfs_values.specs.Moment.{moment_of};
    ghost use Rattle.rpc_msg.specs.Offer.{basic};
    ghost use Rattle.server_options.specs.Asked.{IsBasic, IsInRange, IsUsual};
    ghost use Rattle.server_options.specs.Standings.{IsOpen};

    /// These options, where the numbers are in their ranges, and else none. The offer and the plan
    /// are the basic ones, roots have the start of all times, everybody is served, no caller is
    /// checked, at most 64 connections are open, for which others wait, none is ever idle, none is
    /// told of, and no statistics are.
    pub fn new(
        address: SocketAddr,
        volumes: usize,
        workers: usize,
        connections: Option<u64>,
    ) -> Option<Options>
        ensures given { IfSome result (λ options. options.address ≡ address
            × options.volumes ≡ volumes × options.workers ≡ workers
            × options.connections ≡ connections × IsUsual options.admission
            × options.offer ≡ basic × IsBasic options.plan × IsOpen options.rules
            × moment_of options.begun ≡ start_of_times
            × options.idle ≡ None × options.most_owed ≡ None × options.log ≡ false
            × options.statistics ≡ None) }
        ensures in_range { IfSome result (λ options. IsInRange volumes workers) }
        ensures refused { IfNone result (IsInRange volumes workers → ⊥) }
    {
        if volumes == 0 || volumes > MOST_VOLUMES {
            return None;
        }
        if workers == 0 || workers > MOST_WORKERS {
            return None;
        }
        Some(Options {
            address,
            volumes,
            workers,
            connections,
            admission: Admission {
                most_open: MOST_OPEN,
                when_full: WhenFull::Waits,
            },
            offer: Offer::basic(),
            rules: PeerRules::OPEN,
            plan: VolumePlan::basic(),
            begun: Moment::START,
            idle: None,
            most_owed: None,
            log: false,
            statistics: None,
        })
    }

    /// The same options with another offer.
    pub fn with_offer(self, offer: Offer) -> Options
        ensures { result ≡ record self { offer = offer } }
    {
        let mut options = self;
        options.offer = offer;
        options
    }

    /// The same options, with connections let in otherwise.
    pub fn with_admission(self, admission: Admission) -> Options
        ensures { result ≡ record self { admission = admission } }
    {
        let mut options = self;
        options.admission = admission;
        options
    }

    /// The same options, with other rules of peers.
    pub fn with_rules(self, rules: PeerRules) -> Options
        ensures { result ≡ record self { rules = rules } }
    {
        let mut options = self;
        options.rules = rules;
        options
    }

    /// The same options, with volumes of another plan.
    pub fn with_plan(self, plan: VolumePlan) -> Options
        ensures { result ≡ record self { plan = plan } }
    {
        let mut options = self;
        options.plan = plan;
        options
    }

    /// The same options, with volumes whose roots have this moment as their times.
    pub fn with_begun(self, begun: Moment) -> Options
        ensures { result ≡ record self { begun = begun } }
    {
        let mut options = self;
        options.begun = begun;
        options
    }

    /// The same options, with connections that are idle after so long.
    pub fn with_idle(self, idle: IdleTime) -> Options
        ensures { result ≡ record self { idle = Some idle } }
    {
        let mut options = self;
        options.idle = Some(idle);
        options
    }

    /// The same options, where all connections together may be owed so many bytes of replies.
    pub fn with_most_owed(self, bytes: u64) -> Options
        ensures { result ≡ record self { most_owed = Some bytes } }
    {
        let mut options = self;
        options.most_owed = Some(bytes);
        options
    }

    /// The same options, where each connection is told of or not.
    pub fn with_log(self, log: bool) -> Options
        ensures { result ≡ record self { log = log } }
    {
        let mut options = self;
        options.log = log;
        options
    }

    /// The same options, with statistics that are told so often.
    pub fn with_statistics(self, period: Period) -> Options
        ensures { result ≡ record self { statistics = Some period } }
    {
        let mut options = self;
        options.statistics = Some(period);
        options
    }
}
