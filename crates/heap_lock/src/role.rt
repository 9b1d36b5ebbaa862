//! Who acts, and which events each may ask for.
ghost use Rattle.std.specs.Prelude.{◌≡◌};
ghost use Rattle.heap_lock.specs.Roles.{may_for, owner, owner_of};

use heap_history::pack::Deed;
use heap_history::packing::pack_event;
use heap_step::Event;

/// Who acts.
#[derive(Clone, Copy, PartialEq, Eq, Debug)]
pub enum Role {
    /// The mutator of this number, for the events that name it.
    Mutator(u64),
    /// The marker, for Snap, Mark, Drain and Finish.
    Marker,
    /// The sweeper, for Sweep.
    Sweeper,
    /// One who may do every event, and rewind.
    User,
}

// Returns whose event it is.
pub(crate) fn owner_of(event: &Event) -> Role
    ensures { result ≡ owner_of event.now }
{
    match pack_event(event) {
        Some(pack) => owner(pack.deed, pack.first),
        None => Role::User,
    }
}

// Returns whose deed it is, by its sort and its first number.
fn owner(deed: Deed, first: u64) -> Role
    ensures { result ≡ owner deed first }
{
    match deed {
        Deed::Snap | Deed::Mark | Deed::Drain | Deed::Finish => Role::Marker,
        Deed::Sweep => Role::Sweeper,
        Deed::Rewind => Role::User,
        _ => Role::Mutator(first),
    }
}

// Returns whether a role may do what is its owner's.
pub(crate) fn may_for(role: Role, owner: Role) -> bool
    ensures { result ≡ may_for role owner }
{
    match role {
        Role::User => true,
        Role::Mutator(m) => match owner {
            Role::Mutator(k) => k == m,
            _ => false,
        },
        Role::Marker => matches!(owner, Role::Marker),
        Role::Sweeper => matches!(owner, Role::Sweeper),
    }
}
