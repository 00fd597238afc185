// Two volumes of a chain, of which one may be merged into the other.
ghost use Rattle.volume_chain.specs.Chain.{records_kept};
ghost use Rattle.volume_chain.specs.Subchain.{IsSubchain};

use crate::chain::Chain;
use sd_names::{Id, Refusal};

/// A volume that may be merged into its parent, by what the texts say.
#[derive(Clone, Copy, Debug)]
pub struct Subchain {
    /// The volume into which the other one is merged.
    pub base: Id,
    /// The volume that is merged.
    pub top: Id,
}

impl Chain {
    /// `top` may be merged into `base`. Else the refusal is 60 with a volume that isn't there, the base first; 67 with the
    /// top and its parent that counts, which isn't the base, or zeros where it has none; or 64 where the top is ILLEGAL.
    /// It calls no disk and takes no memory.
    pub fn subchain(&self, base: Id, top: Id) -> Result<Subchain, Refusal>
        ensures { IsSubchain (records_kept self.now) base top result }
    {
        match self.records.subchain_refusal(&base, &top) {
            Some(refusal) => Err(refusal),
            None => Ok(Subchain { base, top }),
        }
    }
}
