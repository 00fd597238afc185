// Laws of the read of a cluster: contracts of functions that do nothing.
ghost use Rattle.std.specs.Prelude.{ℕ, List};
ghost use Rattle.shared_disk.specs.Content.{Content};
ghost use Rattle.chain_model.specs.Folder.{Volumes};
ghost use Rattle.volume_chain.specs.declared.chain.Chain.{Chain};
ghost use Rattle.chain_reading.specs.Knowing.{KnowsImage};
ghost use Rattle.commit_reading.specs.Knowing.{Knows};
ghost use Rattle.commit_reading.specs.Reading.{sub_of};
ghost use Rattle.commit_reading.specs.declared.reading.CommitReading.{CommitReading as AnyReading};

/// A law: what the read of a cluster knows stays known whatever else changes on the disk, while the volumes from the top on can
/// be read and their files are those that they were, or longer.
pub fn knowledge_survives()
    ensures { (w : AnyReading) (c : Chain) (host : ℕ) (x : Volumes) (part : List ℕ) (d e : Content) → Knows w c host x part d → KnowsImage c (sub_of w).top host x e → Knows w c host x part e }
{}
