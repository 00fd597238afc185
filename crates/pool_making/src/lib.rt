//! Making a pool: the folders and files of its master domain, which counts from one rename on.
#![tactic(auto)]

mod laws;
mod layout;
mod making;
mod stages;

pub use laws::{
    a_made_domain_survives_crashes, a_new_domain_has_no_leases, a_new_text_reads_back,
    listings_find_the_first_text, make_knowledge_survives_crashes, make_knowledge_survives_others,
    makings_leave_only_theirs,
};
pub use layout::{Area, Folder};
pub use making::{MakePool, Stage};
