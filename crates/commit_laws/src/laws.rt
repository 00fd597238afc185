// Laws of commits.
ghost use Rattle.std.specs.Prelude.{◌≡◌, ◌≢◌, ℕ, ◌+◌, ◌≤◌, true, List};
ghost use Rattle.sd_names.specs.declared.id.Id.{Id};
ghost use Rattle.shared_disk.specs.Calls.{sectors_in};
ghost use Rattle.chain_model.specs.Chain.{IsBelow};
ghost use Rattle.chain_model.specs.Flat.{IsFlat, IsSectorOf, flat};
ghost use Rattle.chain_model.specs.Folder.{Volumes};
ghost use Rattle.chain_model.specs.Reading.{IsReading};
ghost use Rattle.chain_model.specs.Records.{is_legal};
ghost use Rattle.chain_laws.specs.Laid.{IsInPart, IsPartCovered, Laying, Reads};
ghost use Rattle.chain_laws.specs.Written.{HoldsPart, IsWritten};
ghost use Rattle.commit_laws.specs.Commit.{HoldsTo, IsCommit, IsHeldBy, IsPieceLaid};

/// A law: where the top itself holds what is committed, no other LEGAL volume reads it through the base. So the base may be
/// written there, whatever volumes stand above.
pub fn commits_are_covered()
    ensures { (l : Laying) (top v : Id) (vs : List Id) (x : Volumes) → IsReading l.records v vs → IsCommit l top → IsHeldBy l top x → IsPartCovered l x }
{}

/// A law: while bytes of the top are committed, each other LEGAL volume than the base reads as it did, the top among them.
pub fn commits_leave_other_volumes()
    ensures { (l : Laying) (top v : Id) (vs : List Id) (flats : Id → ℕ → List ℕ) (x y : Volumes) → IsReading l.records v vs → IsCommit l top → IsHeldBy l top x
        → IsBelow l.records l.volume l.below → IsFlat l.records flats x → Reads l l.reads x → IsWritten l x y
        → (u : Id) (us : List Id) → u ≢ l.volume → is_legal l.records u ≡ true → IsBelow l.records u us → (k : ℕ) → IsSectorOf l.records u k → flat l.records y u us k ≡ flats u k }
{}

/// A law: what the base holds of a commit it reads as the top does.
pub fn committed_bytes_are_read()
    ensures { (l : Laying) (top : Id) (vs below : List Id) (x y : Volumes) (k : ℕ) → IsCommit l top → IsHeldBy l top x → IsWritten l x y → HoldsPart l y
        → IsInPart l.part k → IsSectorOf l.records l.volume k → flat l.records y l.volume below k ≡ flat l.records y top vs k }
{}

/// A law: a part may be laid piece by piece. Each write of a piece is a step of the write of the part, which leaves what was
/// laid before it; and with the next piece the volume holds so many sectors more.
pub fn pieces_make_a_part()
    ensures written { (l whole : Laying) (x y : Volumes) → IsPieceLaid l whole x → IsWritten l x y → IsWritten whole x y }
    ensures stays { (l : Laying) (end : ℕ) (x y : Volumes) → HoldsTo l end x → IsWritten l x y → HoldsTo l end y }
    ensures next { (l whole : Laying) (x y : Volumes) → IsPieceLaid l whole x → HoldsTo whole l.part.at y → HoldsPart l y → HoldsTo whole (l.part.at + sectors_in l.part.bytes) y }
    ensures whole { (l : Laying) (end : ℕ) (x : Volumes) → l.part.at + sectors_in l.part.bytes ≤ end → HoldsTo l end x → HoldsPart l x }
{}
