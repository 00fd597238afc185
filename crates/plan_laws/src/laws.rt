// Laws of plans in a layer: contracts of functions that do nothing.
ghost use Rattle.std.specs.Prelude.{◌≡◌, ℕ, ◌+◌, ◌*◌, ◌^◌, ◌<◌, ◌≤◌, List, slice_index, Ok, Some};
ghost use Rattle.qcow_format.specs.declared.header.Header.{Header};
ghost use Rattle.image_model.specs.File as image;
ghost use Rattle.image_model.specs.Soundness.{IsSound, layer_header};
ghost use Rattle.layer_laws.specs.Laws.{layer};
ghost use Rattle.link_laws.specs.Links.{AreLinks, IsNewTable};
ghost use Rattle.layer_writing.specs.Holding.{IsSpare};
ghost use Rattle.layer_linking.specs.Links.{to_of};
ghost use Rattle.layer_linking.specs.declared.links.Links.{Links};
ghost use Rattle.write_planning.specs.Linked as plan;
ghost use Rattle.write_planning.specs.Linked.{end_in, group_in, sectors_of, start_in};
ghost use Rattle.write_planning.specs.Plan.{span_of};
ghost use Rattle.write_planning.specs.Span.{at_of, length_of, width_of};
ghost use Rattle.write_planning.specs.declared.plan.WritePlan.{WritePlan};
ghost use Rattle.plan_laws.specs.Given.{MayGetPlaces};

/// The links that a plan gives for a sector may be made in a sound layer, where what was found of these clusters is what the
/// layer says, the part lies below the capacity, and the clusters that were taken for these are spare.
pub fn links_of_a_plan_may_be_made()
    ensures { (p : WritePlan) (placed : List ℕ) (file : image.File) (capacity : ℕ) (h : Header) (sector : ℕ) (links : Links) → layer_header file capacity ≡ Ok h → IsSound file capacity
        → at_of (span_of p) + length_of (span_of p) ≤ capacity → MayGetPlaces p placed (layer h file) capacity (start_in (span_of p) sector) (end_in (span_of p) sector)
        → plan.AreLinks p placed (group_in (span_of p) sector) (start_in (span_of p) sector) (end_in (span_of p) sector) (Some links)
        → AreLinks (layer h file) capacity (group_in (span_of p) sector) (to_of links) }
{}

/// So may the L2 table that is made with these links, at the cluster that was taken for it, where that one is spare too.
pub fn tables_of_a_plan_may_be_made()
    ensures { (p : WritePlan) (placed : List ℕ) (file : image.File) (capacity : ℕ) (h : Header) (sector m : ℕ) (links : Links) → layer_header file capacity ≡ Ok h → IsSound file capacity
        → sector < sectors_of (span_of p) → MayGetPlaces p placed (layer h file) capacity (start_in (span_of p) sector) (end_in (span_of p) sector)
        → plan.AreLinks p placed (group_in (span_of p) sector) (start_in (span_of p) sector) (end_in (span_of p) sector) (Some links)
        → plan.table_with p sector ≡ Some m → IsSpare (layer h file) capacity (slice_index placed m * width_of (span_of p)) → slice_index placed m * width_of (span_of p) < 2 ^ 56
        → IsNewTable (layer h file) capacity (to_of links) (slice_index placed m * width_of (span_of p)) }
{}
