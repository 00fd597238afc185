// Laws of gathering: contracts of functions that do nothing.
ghost use Rattle.std.specs.Prelude.{◌≡◌, ◌++◌, ◌≤◌, ℕ, sum_by, List, length, map, true, Contains, Option, None, Some};
ghost use Rattle.std.specs.List.Sorted.{IsStrictlySortedBy};
ghost use Rattle.std.specs.declared.cmp.Ordering.TheVariants.{Less};
ghost use Rattle.sd_names.specs.Id.{IsIdBytes, id_text};
ghost use Rattle.sd_names.specs.Place.{path_cmp};
ghost use Rattle.sd_names.specs.declared.id.Id.{Id};
ghost use Rattle.sd_names.specs.declared.place.Dir.{Dir};
ghost use Rattle.sd_names.specs.declared.place.Name.{Name};
ghost use Rattle.sd_names.specs.declared.refusal.Refusal.{Refusal};
ghost use Rattle.sd_names.specs.declared.refusal.Refusal.TheVariants.{NoVolume};
ghost use Rattle.shared_disk.specs.Content.{Content};
ghost use Rattle.shared_disk.specs.NameCalls.{ShowsName};
ghost use Rattle.chain_model.specs.Folder.{folder_of};
ghost use Rattle.chain_model.specs.Growth.{MayHaveGrown};
ghost use Rattle.chain_model.specs.Opening.{Check, FirstRefusal, id_cmp, there};
ghost use Rattle.chain_model.specs.Records.{is_volume};
ghost use Rattle.chain_records.specs.Shown.{AreRead};
ghost use Rattle.chain_gathering.specs.Gathering.{HasGathered, Knows, Meets, folder, image};
ghost use Rattle.chain_gathering.specs.Kept.{first_missing, found_in, ids_found, records_kept};
ghost use Rattle.chain_gathering.specs.Knowing.{volumes_in};
ghost use Rattle.chain_gathering.specs.Names.{IsCost, cost_by, cost_of};
ghost use Rattle.chain_gathering.specs.Stages.{GatheringTurn};
ghost use Rattle.chain_gathering.specs.Steps.{IsPaid, IsRise, IsShown};
ghost use Rattle.chain_gathering.specs.declared.gathered.Gathered.{Gathered as AnyGathered};
ghost use Rattle.chain_gathering.specs.declared.gathering.Gathering.{Gathering as AnyGathering};

/// A law: what a gathering knows stays known, and what was gathered stays true, whatever else changes on the disk,
/// while the folder is there and has the same texts, and the same volume files, which other hosts may have made longer.
pub fn knowledge_survives()
    ensures between { (g : AnyGathering) (host : ℕ) (d e : Content) → e.dir (folder g) ≡ d.dir (folder g) → MayHaveGrown (folder_of (folder g) d) (folder_of (folder g) e) → Knows g host d → Knows g host e }
    ensures gathered { (g : AnyGathering) (kept : AnyGathered) (d e : Content) → e.dir (folder g) ≡ d.dir (folder g) → MayHaveGrown (folder_of (folder g) d) (folder_of (folder g) e) → HasGathered g kept d → HasGathered g kept e }
{}

/// A law: `falls` of a step applies where the names that the folder shows have such a cost. Where these are among some
/// names, what those cost is one; and all of them cost what their prices come to, whatever the price of a name is.
pub fn shown_names_bound_the_steps()
    ensures paid { (g : AnyGathering) (turn : GatheringTurn) (cost : Option Name → ℕ) (d : Content) → IsCost (folder g) d cost → Meets IsRise g turn → Meets (IsShown (folder g) d) g turn → Meets (IsPaid cost) g turn }
    ensures counted { (dir : Dir) (d : Content) (names : List Name) → ((n : Name) → ShowsName d dir n → Contains names n) → IsCost dir d (cost_of names) }
    ensures all { (priced : Name → ℕ) (names : List Name) → cost_by priced names None ≡ sum_by priced names }
{}

/// A law: a folder shows no more texts of volumes than it shows names. So there are few enough to count them, where there
/// are fewer than 2^64 names.
pub fn shown_texts_are_few()
    ensures { (dir : Dir) (d : Content) (names : List Name) (vs : List Id) → ((n : Name) → ShowsName d dir n → Contains names n) → IsStrictlySortedBy id_cmp vs
        → ((v : Id) → Contains vs v → is_volume (volumes_in dir d) v ≡ true) → length vs ≤ length names }
{}

/// A law: of an image that was gathered, the first volume without its file is the first whose check of its file
/// refuses; where there is none, those checks pass.
pub fn missing_files_are_refused()
    ensures missing { (g : AnyGathering) (kept : AnyGathered) (d : Content) (v : Id) (rest : List Check) → HasGathered g kept d → first_missing (found_in kept) ≡ Some v
        → FirstRefusal (image g) (volumes_in (folder g) d) (ids_found (found_in kept)) (map there (ids_found (found_in kept)) ++ rest) (NoVolume v) }
    ensures none { (g : AnyGathering) (kept : AnyGathered) (d : Content) (rest : List Check) (e : Refusal) → HasGathered g kept d → first_missing (found_in kept) ≡ None
        → FirstRefusal (image g) (volumes_in (folder g) d) (ids_found (found_in kept)) rest e
        → FirstRefusal (image g) (volumes_in (folder g) d) (ids_found (found_in kept)) (map there (ids_found (found_in kept)) ++ rest) e }
{}

/// A law: what was gathered of an image is what its texts say, and which files are there, so that the checks that follow may
/// go by the records.
pub fn gathered_records_are_read()
    ensures { (g : AnyGathering) (kept : AnyGathered) (d : Content) → HasGathered g kept d → AreRead (image g) (volumes_in (folder g) d) (records_kept kept) }
{}

/// A law: the texts of identifiers are in the order of their bytes, whatever follows them.
pub fn id_texts_are_in_order()
    ensures { (a b rest more : List ℕ) → IsIdBytes a → IsIdBytes b → path_cmp a b ≡ Less → path_cmp (id_text a ++ rest) (id_text b ++ more) ≡ Less }
{}
