// Laws of making a pool: contracts of functions that do nothing.
ghost use Rattle.std.specs.Prelude.{◌≡◌, Bool, Option, ℕ, ◌<◌, ◌≤◌, ◌^◌, List, length, replicate, Ok};
ghost use Rattle.kv_text.specs.Text.{IsOneLine};
ghost use Rattle.sd_names.specs.Id.{IsIdBytes};
ghost use Rattle.sd_names.specs.declared.id.Id.{Id};
ghost use Rattle.sd_names.specs.declared.place.Dir.{Dir};
ghost use Rattle.sd_names.specs.declared.place.Place.{Place};
ghost use Rattle.shared_disk.specs.Content.{Content};
ghost use Rattle.shared_disk.specs.Crash.{DownLeaves, IsOutcome};
ghost use Rattle.domain_meta.specs.Read.{read_domain};
ghost use Rattle.domain_meta.specs.Text.{domain_text};
ghost use Rattle.lease_area.specs.Hold.{Stands};
ghost use Rattle.pool_making.specs.Layout.{IsOwn, metadata_of};
ghost use Rattle.pool_making.specs.Listing.{AreStillThere, HadNone, IsFirstFound};
ghost use Rattle.pool_making.specs.Making.{domain_of, stage_of};
ghost use Rattle.pool_making.specs.Pool.{IsDomain, IsNoneOrWhole, IsNoneOrWholeOnEach};
ghost use Rattle.pool_making.specs.Steps.{CallOf, Knows};
ghost use Rattle.pool_making.specs.Writing.{only_master};
ghost use Rattle.pool_making.specs.declared.making.MakePool.{MakePool};
ghost use Rattle.pool_making.specs.declared.making.Stage.TheVariants.{Checking, Listing};
ghost use Rattle.sd_names.specs.Turn.{MatchTurn};
ghost use Rattle.shared_disk.specs.WellFormed.{IsWellFormed};
ghost use Rattle.sd_names.specs.declared.turn.Turn.{Turn};
ghost use Rattle.unsynced_laws.specs.Unsynced.{IsSettledAt, LeavesOnlyOf};

/// A domain that was made whole is whole on each outcome, and one that doesn't count counts on none.
pub fn a_made_domain_survives_crashes()
    ensures whole { (sd : Id) (text : List ℕ) (d o : Content) → IsDomain sd text d → IsOutcome d o → IsDomain sd text o }
    ensures either { (sd : Id) (text : List ℕ) (d : Content) → IsNoneOrWhole sd text d → IsNoneOrWholeOnEach sd text d }
{}

/// The text of a new master reads as its record.
pub fn a_new_text_reads_back()
    ensures { (pool sd : Id) (version : ℕ) (text : List ℕ) → IsIdBytes pool.0 → IsIdBytes sd.0 → version < 2 ^ 64 → length text ≤ 4096 → IsOneLine text → read_domain sd (domain_text (only_master pool sd version text)) ≡ Ok (only_master pool sd version text) }
{}

/// Each lease sector of a new domain is empty, on the medium: nobody is the manager of its pool, and it has no images.
pub fn a_new_domain_has_no_leases()
    ensures { (sd : Id) (text : List ℕ) (d : Content) (slot : ℕ) → slot < 1024 → IsDomain sd text d → Stands d sd slot (replicate 512 0) }
{}

/// What a making knows stays true under each change that leaves the folders, the texts of domains and the new
/// domain's own files alone.
pub fn make_knowledge_survives_others()
    ensures { (m : MakePool) (host : ℕ) (d e : Content) → ((q : Dir) → e.dir q ≡ d.dir q) → ((q : Id) → e.file (metadata_of q) ≡ d.file (metadata_of q)) → ((q : Place) → IsOwn (domain_of m) q → e.file q ≡ d.file q) → Knows m host d → Knows m host e }
{}

/// Behind each step of a making, done, failed or refused, and whatever stands in the folder, whoever has something unsynced
/// had something before, or is the host that makes the pool.
pub fn makings_leave_only_theirs()
    ensures { (m : MakePool) (host faults : ℕ) (turn : Turn MakePool (Unit {0}) (Unit {0})) (d e : Content) → CallOf (stage_of m) m host faults turn d e → LeavesOnlyOf host d e }
{}

/// What a making knows stays true where another host goes down that has nothing unsynced in the texts of domains and in the new
/// domain's own files.
pub fn make_knowledge_survives_crashes()
    ensures { (m : MakePool) (host other : ℕ) (d e : Content) → DownLeaves d other e → ((q : Id) → IsSettledAt other (d.file (metadata_of q))) → ((q : Place) → IsOwn (domain_of m) q → IsSettledAt other (d.file q)) → Knows m host d → Knows m host e }
{}

/// Where each text that was there at an earlier moment still is, a listing passes no domain that had one then: 31 names a
/// domain that has a text, below which none had one, whatever others have made since.
pub fn listings_find_the_first_text()
    ensures listed { (m : MakePool) (host faults : ℕ) (turn : Turn MakePool (Unit {0}) (Unit {0})) (after : Option Dir) (had : Id → Bool) (d e : Content) → IsWellFormed d → AreStillThere had d → HadNone had (Listing after) → CallOf (Listing after) m host faults turn d e → MatchTurn turn (λ next. HadNone had (stage_of next)) (λ _. Unit {0}) (λ _ refusal. IsFirstFound refusal had d) }
    ensures checked { (m : MakePool) (host faults : ℕ) (turn : Turn MakePool (Unit {0}) (Unit {0})) (q : Id) (had : Id → Bool) (d e : Content) → IsWellFormed d → AreStillThere had d → IsIdBytes q.0 → HadNone had (Checking q) → CallOf (Checking q) m host faults turn d e → MatchTurn turn (λ next. HadNone had (stage_of next)) (λ _. Unit {0}) (λ _ refusal. IsFirstFound refusal had d) }
{}
