// Laws of surveys: contracts of functions that do nothing.
ghost use Rattle.std.specs.Prelude.{◌≡◌, ◌^◌, None};
ghost use Rattle.image_model.specs.Layer.{Tables, cluster_size};
ghost use Rattle.image_model.specs.Room.{room_of};
ghost use Rattle.write_planning.specs.Plan.{HasTables, looked_up, span_of};
ghost use Rattle.write_planning.specs.Span.{first_of, width_of};
ghost use Rattle.part_survey.specs.Survey.{KnowsSurvey, cluster_of, plan_of, table_of};
ghost use Rattle.part_survey.specs.declared.survey.Survey.{Survey as AnySurvey};

/// A survey that was begun knows each layer whose clusters are as large as it says.
pub fn surveys_begin()
    ensures { (s : AnySurvey) (t : Tables) → looked_up (plan_of s) ≡ 0 → cluster_of s ≡ first_of (span_of (plan_of s)) → table_of s ≡ None → width_of (span_of (plan_of s)) ≡ cluster_size t → KnowsSurvey s t }
{}

/// In a layer the clusters under one L2 table have it or not.
pub fn tables_are_shared()
    ensures { (t : Tables) → HasTables (room_of t) }
{}
