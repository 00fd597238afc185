// Laws of plans: contracts of functions that do nothing.
ghost use Rattle.std.specs.Prelude.{◌≡◌, ◌⊎◌, ◌↔◌, ℕ, ◌+◌, ◌/◌, ◌<◌, ◌≤◌, false, Some};
ghost use Rattle.image_model.specs.Room.{Need, Room};
ghost use Rattle.write_planning.specs.Linked.{end_in, group_in, sectors_of, start_in, table_with};
ghost use Rattle.write_planning.specs.Part.{IsMet, IsPart, first_met, many_met};
ghost use Rattle.write_planning.specs.Plan.{HasTables, Tells, found_at, found_table, span_of, tables_of, target_at, wanted_of};
ghost use Rattle.write_planning.specs.Span.{count_of, first_of, width_of};
ghost use Rattle.write_planning.specs.declared.plan.Target.TheVariants.{New};
ghost use Rattle.write_planning.specs.declared.plan.WritePlan.{WritePlan};
ghost use Rattle.write_planning.specs.declared.span.Span.{Span};

/// The clusters that a part meets are those in which bytes of it lie.
pub fn parts_meet_their_clusters()
    ensures { (at length width cluster : ℕ) → IsPart at length width → IsMet at length width cluster ↔ ((first_met at width ≤ cluster) × (cluster < first_met at width + many_met at length width)) }
{}

/// Where what was found is what a layer says, as many clusters of the file are wanted as the definition of room says.
pub fn plans_want_what_a_write_needs()
    ensures { (p : WritePlan) (r : Room) → Tells p r → wanted_of p ≡ Need r (first_of (span_of p)) (first_of (span_of p) + count_of (span_of p)) }
{}

/// Each cluster that is taken is given once: to an L2 table, or to a cluster of the virtual disk.
pub fn taken_clusters_are_given_once()
    ensures data { (p : WritePlan) (j m : ℕ) → j < count_of (span_of p) → target_at p j ≡ New m → (tables_of p ≤ m) × (m < wanted_of p) }
    ensures data_apart { (p : WritePlan) (i j m : ℕ) → target_at p i ≡ New m → target_at p j ≡ New m → i ≡ j }
    ensures tables { (p : WritePlan) (sector m : ℕ) → sector < sectors_of (span_of p) → table_with p sector ≡ Some m → m < tables_of p }
    ensures tables_apart { (p : WritePlan) (s t m : ℕ) → table_with p s ≡ Some m → table_with p t ≡ Some m → s ≡ t }
    ensures each { (p : WritePlan) (m : ℕ) → m < wanted_of p → ((sector : ℕ) × (sector < sectors_of (span_of p)) × (table_with p sector ≡ Some m)) ⊎ ((j : ℕ) × (j < count_of (span_of p)) × (target_at p j ≡ New m)) }
{}

/// Each of the part's clusters has its entry in just one of the sectors.
pub fn sectors_part_the_clusters()
    ensures one { (s : Span) (j : ℕ) → j < count_of s → (sector : ℕ) × (sector < sectors_of s) × (start_in s sector ≤ j) × (j < end_in s sector) }
    ensures group { (s : Span) (sector j : ℕ) → start_in s sector ≤ j → j < end_in s sector → (first_of s + j) / 64 ≡ group_in s sector }
{}

/// A part meets one cluster at least and 17 at the most, whose entries stand in two sectors at the most and in no more than there
/// are clusters.
pub fn parts_meet_few_sectors()
    ensures { (s : Span) → (1 ≤ count_of s) × (count_of s ≤ 17) × (1 ≤ sectors_of s) × (sectors_of s ≤ 2) × (sectors_of s ≤ count_of s) }
{}

/// Where the sectors are linked one after the other, the L2 table of each is there or is made with it: one that the layer
/// hasn't is made with this sector or with an earlier one, and none is made that the layer has.
pub fn tables_are_made_in_time()
    ensures made { (p : WritePlan) (r : Room) (sector j : ℕ) → Tells p r → HasTables r → sector < sectors_of (span_of p) → start_in (span_of p) sector ≤ j → j < end_in (span_of p) sector
        → found_table (found_at p j) ≡ false → (m : ℕ) × (from : ℕ) × (from ≤ sector) × (table_with p from ≡ Some m)
        × ((first_of (span_of p) + start_in (span_of p) from) / (width_of (span_of p) / 8) ≡ (first_of (span_of p) + j) / (width_of (span_of p) / 8)) }
    ensures wanting { (p : WritePlan) (r : Room) (sector j m : ℕ) → Tells p r → HasTables r → sector < sectors_of (span_of p) → start_in (span_of p) sector ≤ j → j < end_in (span_of p) sector
        → table_with p sector ≡ Some m → found_table (found_at p j) ≡ false }
{}
