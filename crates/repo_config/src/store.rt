use crate::group::Group;
use nx_base::Layout;
use std::marker::Model;

/// A declared store: the group that it is, and how the places of its blobs are chosen where it is a
/// file store.
#[derive(Drop)]
pub(crate) struct Store {
    pub(crate) group: Group,
    pub(crate) layout: Option<Layout>,
}

impl Model for Store {
    ghost use Rattle.repo_config.specs.Settings as settings;

    ghost Value = { settings.Store };

    ghost view = { λ s. record { group = s.group; layout = s.layout } };
}
