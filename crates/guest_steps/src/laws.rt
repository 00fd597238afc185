// A law of a write's room: the contract of a function that does nothing.
ghost use Rattle.std.specs.Prelude.{◌≡◌, ◌⊎◌, ◌↔◌, ℕ, ◌≤◌};
ghost use Rattle.sd_names.specs.declared.refusal.Refusal.{Refusal};
ghost use Rattle.shared_disk.specs.Content.{Content, File};
ghost use Rattle.volume_meta.specs.declared.record.VolumeRecord.{VolumeRecord};
ghost use Rattle.image_model.specs.Room.{end_of_room};
ghost use Rattle.qcow_layer.specs.Knowing.{mapped};
ghost use Rattle.qcow_layer.specs.declared.layer.Layer.{Layer};
ghost use Rattle.layer_heading.specs.Clearing as heading;
ghost use Rattle.layer_heading.specs.declared.clearing.Clearing.{Clearing};
ghost use Rattle.layer_heading.specs.declared.clearing_stage.ClearingStage.TheVariants.{Begun};
ghost use Rattle.chain_laws.specs.Laid.{Laying};
ghost use Rattle.write_planning.specs.Plan.{span_of, wanted_of};
ghost use Rattle.write_planning.specs.declared.plan.WritePlan.{WritePlan};
ghost use Rattle.write_planning.specs.declared.span.Span.{Span};
ghost use Rattle.write_preparing.specs.Preparing.{HasRoom, KnowsAsking, KnowsClearingOf, LacksRoom};
ghost use Rattle.guest_steps.specs.Room.{IsShortIn, IsShortOf, room_seen};

/// A law: where room is asked for, as much as the plan wants is there, or fewer clusters are free than the part's write needs, and
/// never both. A refusal for want of room says the latter, and where the preparing goes on it isn't so. That is what the definition
/// of room says, where the layer's map goes as far as the room.
pub fn room_is_short_or_found()
    ensures either { (p : WritePlan) (w : Layer) (l : Laying) (x : VolumeRecord) (host : ℕ) (f : File) → KnowsAsking p w l x host f → HasRoom w f.size (wanted_of p) ⊎ IsShortOf (span_of p) w host f }
    ensures never { (p : WritePlan) (w : Layer) (l : Laying) (x : VolumeRecord) (host : ℕ) (f : File) → KnowsAsking p w l x host f → HasRoom w f.size (wanted_of p) → IsShortOf (span_of p) w host f → ⊥ }
    ensures refused { (s : Span) (w next : Layer) (host : ℕ) (refusal : Refusal) (f : File) (d e : Content) → LacksRoom s w next host refusal f d e → IsShortOf s w host f }
    ensures goes { (p : WritePlan) (c : Clearing) (w : Layer) (l : Laying) (x : VolumeRecord) (host : ℕ) (f : File) → KnowsClearingOf p c w l x host f → heading.stage_of c ≡ Begun → IsShortOf (span_of p) w host f → ⊥ }
    ensures whole { (s : Span) (w : Layer) (host : ℕ) (f : File) → end_of_room (room_seen w host f) ≤ mapped w → IsShortOf s w host f ↔ IsShortIn s w host f }
{}
