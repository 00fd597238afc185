// The record of a domain.
use sd_names::{Bytes, Id, Ids, Role};

/// What the text of a domain says.
#[derive(Debug, Drop)]
pub struct DomainRecord {
    /// The version of the domain's texts; any number is read.
    pub version: u64,
    pub role: Role,
    /// The domain.
    pub sduuid: Id,
    /// The domain's pool.
    pub pool: Id,
    /// The pool's domains, which a master lists: 1 to 4, rising. Any other domain lists none.
    pub domains: Ids,
    /// 1 for a master, 0 for any other domain.
    pub master_version: u64,
    /// At most 4,096 bytes.
    pub description: Bytes,
}
