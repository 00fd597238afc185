// What a host keeps while it is the manager of a pool.
use sd_names::Id;
use spm_role::Spm;

/// The role of the manager, with the task that a verb of this host has begun and not ended. It can't be dropped, since it
/// holds the role.
#[derive(Debug)]
pub struct Leading {
    pub(crate) spm: Spm,
    pub(crate) begun: Option<Id>,
}
