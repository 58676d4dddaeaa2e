//! Whom a call acts for.

ghost use Rattle.std.specs.Prelude.{◌≡◌, ◌<◌, ◌++◌, ◌∷◌, ◌==◌, [], length, map};
ghost use Rattle.std.specs.Prelude.{if◌then◌else◌};
ghost use Rattle.nfs_model.specs.Standing.{is_none};
ghost use Rattle.std.specs.List.{list_any};
ghost use Rattle.nfs_model.specs.Names.{same_name};
ghost use Rattle.nfs_values.specs.Credential.{gids_in};

/// The most further groups of a user (authsys_parms, RFC 5531 appendix A).
const MOST_GIDS: usize = 16;

/// The further groups of a user (gids of authsys_parms, RFC 5531 appendix A): at most 16, kept in
/// place.
#[derive(Clone, Copy)]
pub struct GroupList {
    gids: [u32; MOST_GIDS],
    count: u32,
}

/// Whether a group is among these.
fn has_gid(gids: &[u32], gid: u32) -> bool
    ensures { result ≡ list_any (λ g. g == gid) gids.now }
{
    gids.iter().any(|g| *g == gid)
}

/// Whether two lists of groups are one.
fn is_same_list(gids: &[u32], other: &[u32]) -> bool
    ensures { result ≡ same_name gids.now other.now }
{
    gids == other
}

/// All places are there.
fn has_places(gids: [u32; MOST_GIDS])
    ensures { length gids ≡ 16 }
{}

/// A group, or another one where it is 0.
fn unless_zero(gid: u32, other: u32) -> u32
    ensures { result ≡ (if gid == 0 then other else gid) }
{
    if gid == 0 { other } else { gid }
}

/// Puts another group in the place of 0.
fn put_for_zero(gids: &mut [u32], other: u32)
    ensures { gids.new ≡ map (λ g. if g == 0 then other else g) gids.old }
{
    for gid in gids.iter_mut() {
        *gid = unless_zero(*gid, other);
    }
}

impl GroupList {
    /// No group.
    pub const NONE: GroupList = GroupList {
        gids: [0; MOST_GIDS],
        count: 0,
    };

    /// These groups and one more.
    #[tactic(auto, using(crate::proofs::Groups::one_more, crate::proofs::Groups::one_place))]
    pub fn with(self, gid: u32) -> GroupList
        requires { length (gids_in self) < 16 }
        ensures { gids_in result ≡ gids_in self ++ (gid ∷ []) }
    {
        let GroupList { mut gids, count } = self;
        has_places(gids);
        gids[count as usize] = gid;
        GroupList {
            gids,
            count: count + 1,
        }
    }

    /// Whether there are none.
    pub fn is_none(&self) -> bool
        ensures { result ≡ is_none (gids_in self.now) }
    {
        self.count == 0
    }

    /// These groups, with another one in place of 0.
    pub fn with_zero_as(self, other: u32) -> GroupList
        ensures { gids_in result ≡ map (λ g. if g == 0 then other else g) (gids_in self) }
    {
        let GroupList { mut gids, count } = self;
        put_for_zero(&mut gids, other);
        GroupList { gids, count }
    }

    /// Whether a group is among them.
    pub fn has(&self, gid: u32) -> bool
        ensures { result ≡ list_any (λ g. g == gid) (gids_in self.now) }
    {
        let count = (self.count as usize).min(MOST_GIDS);
        has_gid(&self.gids[..count], gid)
    }

    /// Whether the groups of another list are the same, in the same order.
    pub fn is_same(&self, other: &GroupList) -> bool
        ensures { result ≡ same_name (gids_in self.now) (gids_in other.now) }
    {
        let count = (self.count as usize).min(MOST_GIDS);
        let others = (other.count as usize).min(MOST_GIDS);
        is_same_list(&self.gids[..count], &other.gids[..others])
    }
}

/// The user and the groups of a call (RFC 5531 appendix A).
#[derive(Clone, Copy)]
pub struct Credential {
    pub uid: u32,
    pub gid: u32,
    pub gids: GroupList,
}

impl Credential {
    /// Whom a call without a credential acts for.
    pub const NOBODY: Credential = Credential {
        uid: 65534,
        gid: 65534,
        gids: GroupList::NONE,
    };
}
