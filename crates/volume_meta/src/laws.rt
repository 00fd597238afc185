// Laws of the text beside a volume: contracts of functions that do nothing.
ghost use Rattle.std.specs.Prelude.{◌≡◌, ℕ, ◌≤◌, length, Ok};
ghost use Rattle.volume_meta.specs.Read.{read_volume};
ghost use Rattle.volume_meta.specs.Text.{HasShortTexts, volume_text};
ghost use Rattle.volume_meta.specs.Valid.{IsValid};
ghost use Rattle.volume_meta.specs.declared.record.VolumeRecord.{VolumeRecord as AnyRecord};

/// The text of a valid record reads as that record, in the record's domain and image.
pub fn volume_text_reads_back()
    ensures { (version : ℕ) (r : AnyRecord) → IsValid r → read_volume version r.domain r.image (volume_text version r) ≡ Ok r }
{}

/// The text of a valid record has at most 8,192 bytes.
pub fn volume_text_is_short()
    ensures { (version : ℕ) (r : AnyRecord) → IsValid r → length (volume_text version r) ≤ 8192 }
{}
