// Laws of volumes' texts: contracts of functions that do nothing.
ghost use Rattle.std.specs.Prelude.{◌≡◌, ℕ, List, Ok};
ghost use Rattle.sd_names.specs.declared.id.Id.{Id as AnyId};
ghost use Rattle.shared_disk.specs.Content.{Content, File};
ghost use Rattle.volume_meta.specs.Read.{read_volume};
ghost use Rattle.volume_meta.specs.Text.{volume_text};
ghost use Rattle.volume_meta.specs.declared.record.VolumeRecord.{VolumeRecord as AnyRecord};
ghost use Rattle.volume_texts.specs.Legible.{IsLegible, IsTextOf};
ghost use Rattle.volume_texts.specs.Write.{Knows, file_of, volatile_of};
ghost use Rattle.volume_texts.specs.declared.write.TextWrite.{TextWrite as AnyWrite};
ghost use Rattle.whole_file.specs.Text.{HasNoZero, IsTextFile};

/// The file that has the text of a legible record reads as that record.
pub fn written_records_are_read()
    ensures { (version : ℕ) (r : AnyRecord) (f : File) → IsLegible r → IsTextFile (volume_text version r) f → IsTextOf version r f }
{}

/// A record that was read from a text without zero bytes has none in its description and its disk type.
pub fn read_records_are_legible()
    ensures description { (version : ℕ) (sd image : AnyId) (text : List ℕ) (r : AnyRecord) → HasNoZero text → read_volume version sd image text ≡ Ok r → HasNoZero r.description }
    ensures disk_type { (version : ℕ) (sd image : AnyId) (text : List ℕ) (r : AnyRecord) → HasNoZero text → read_volume version sd image text ≡ Ok r → HasNoZero r.disk_type }
{}

/// What a write knows stays true under each change that leaves the folder and the file beside the text's alone.
pub fn text_knowledge_survives_others()
    ensures { (w : AnyWrite) (host : ℕ) (r : AnyRecord) (d e : Content) → e.dir (file_of w).dir ≡ d.dir (file_of w).dir → e.file (volatile_of w) ≡ d.file (volatile_of w) → Knows w host r d → Knows w host r e }
{}
