ghost use Rattle.std.specs.Prelude.{◌≡◌};
ghost use Rattle.std.specs.List.{list_any};
ghost use Rattle.nx_base.specs.Texts.{same_name};
ghost use Rattle.nx_base.specs.Fills.{writable};

use nx_base::{Fill, Member, StoreName};
use std::marker::Model;

/// A group of file stores. A file store is a group of one.
#[derive(Drop)]
pub struct Group {
    pub members: Vec<Member>,
    /// How uploads are spread over the members.
    pub fill: Fill,
}

impl Model for Group {
    ghost use Rattle.nx_base.specs.Fills as fills;

    ghost Value = { fills.Group };

    ghost view = { λ g. record { members = g.members.items; fill = g.fill } };
}

impl Group {
    /// Whether the store is a member that may be written.
    pub fn takes(&self, store: &StoreName) -> bool
        ensures { result ≡ list_any (λ m. same_name m.store store.now) (writable self.now) }
    {
        for member in &self.members {
            if !member.read_only && member.store == *store {
                return true;
            }
        }
        false
    }
}
