//! The names that every layer of the store shares: identifiers, hosts, places, verbs, refusals and turns.
#![tactic(auto)]

mod absence;
mod answers;
mod bytes;
mod fault;
mod host;
mod id;
mod ids;
mod kinds;
mod place;
mod push;
mod refusal;
mod task_state;
mod tasks;
mod turn;
mod up_set;
mod value;
mod verb;

pub use absence::Absence;
pub use answers::Answers;
pub use bytes::Bytes;
pub use fault::{DomainFault, Key, LayerFault, VolumeFault};
pub use host::HostId;
pub use id::{Id, id_text_is_injective, id_text_reads_as_itself};
pub use ids::Ids;
pub use kinds::{AllocKind, Format, Legality, Role, VolType};
pub use place::{
    Dir, Name, PathText, Place, dir_order_is_total, name_order_is_total, place_order_is_total,
};
pub use push::{push_all, push_id, push_number};
pub use refusal::{REFUSAL_ROOM, Refusal, RefusalText, push_refusal};
pub use task_state::TaskState;
pub use tasks::Tasks;
pub use turn::{Failed, NoMemory, Turn};
pub use up_set::UpSet;
pub use verb::{Payload, Verb, VerbName};

#[cfg(test)]
mod tests;
