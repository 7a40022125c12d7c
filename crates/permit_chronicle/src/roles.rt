//! The roles of the parties, as far as the entries give them.

ghost use Rattle.std.specs.Prelude.{◌≡◌, Some, slice_set, IfOk};
ghost use Rattle.permit_chronicle.specs.Telling.{no_roles, role_of, roles_with};

use permit_base::limits::MOST_RECORDS;
use permit_base::values::PartyId;
use permit_base::words::Role;
use permit_history::entry::{Act, Deed};
use std::alloc::{AllocError, Global};

/// No party's role yet.
pub(crate) fn no_roles(alloc: Global) -> Result<Vec<Option<Role>>, AllocError>
    ensures { IfOk result (λ roles. roles.items ≡ no_roles) }
{
    vec![in alloc; None; MOST_RECORDS as usize + 1]
}

/// The role of the party of this number, where an entry gave it.
pub(crate) fn role_of(roles: &[Option<Role>], party: u32) -> Option<Role>
    ensures { result ≡ role_of roles.now party }
{
    match roles.get(party as usize) {
        Some(role) => *role,
        None => None,
    }
}

/// Keeps the role of the party of this number.
fn set(roles: &mut [Option<Role>], party: u32, role: Role)
    ensures { roles.new ≡ slice_set roles.old party (Some role) }
{
    let place = party as usize;
    if place < roles.len() {
        roles[place] = Some(role);
    }
}

/// Keeps the role that an entry gives.
pub(crate) fn keep_role(roles: &mut [Option<Role>], deed: &Deed)
    ensures { roles.new ≡ roles_with roles.old deed.now }
{
    match deed {
        Deed::Found { .. } => set(roles, 1, Role::Official),
        Deed::Begin { .. } | Deed::Upgrade | Deed::RenewToken { .. } => {}
        Deed::Accepted { act, .. } => match act {
            Act::AddParty { role, number, .. } => set(roles, number.get(), *role),
            Act::AddParcel { .. }
            | Act::Transfer { .. }
            | Act::Declare { .. }
            | Act::File { .. }
            | Act::OnFile { .. } => {}
        },
    }
}
