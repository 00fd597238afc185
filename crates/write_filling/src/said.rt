// What was found of a cluster, and what a volume's text says.
ghost use Rattle.std.specs.Prelude.{◌≡◌};
ghost use Rattle.volume_chain.specs.Chain.{records_kept};
ghost use Rattle.chain_records.specs.Records.{records_in};
ghost use Rattle.write_filling.specs.Said as said;

use qcow_format::Entry;
use qcow_layer::Looked;
use sd_names::Id;
use volume_chain::Chain;

/// The entry that was found, or none.
pub(crate) fn entry_found(found: Option<Looked>) -> Entry
    ensures { result ≡ said.entry_found found }
{
    match found {
        Some(looked) => looked.entry,
        None => Entry::Absent,
    }
}

/// The capacity of a volume as its text says, in bytes; 0 for a volume that the chain hasn't.
pub(crate) fn capacity(chain: &Chain, volume: &Id) -> u64
    ensures { result ≡ said.capacity_said (records_in (records_kept chain.now) volume.now) }
{
    match chain.volume(volume) {
        Some(record) => record.capacity,
        None => 0,
    }
}
