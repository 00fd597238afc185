//! Lease sectors: who may change an image, and which host is the manager of the pool, decided by one exchange.
#![tactic(auto)]

mod attempt;
mod exchange;
mod giving;
pub mod laws;
mod lease;
mod new_lease;
mod refusal;
mod rights;
mod scan;
mod scanned;
mod sector;
mod taking;

pub use giving::{empty_task, free_task};
pub use lease::Lease;
pub use rights::is_open;
pub use scan::Scan;
pub use scanned::Scanned;
pub use sector::{Kind, LeaseRecord, Sector};
pub use taking::{take, take_image, take_role};
