// Laws of a domain's text: contracts of functions that do nothing.
ghost use Rattle.std.specs.Prelude.{◌≡◌, ◌≤◌, length, Ok};
ghost use Rattle.domain_meta.specs.Read.{read_domain};
ghost use Rattle.domain_meta.specs.Text.{domain_text};
ghost use Rattle.domain_meta.specs.Valid.{IsValid};
ghost use Rattle.domain_meta.specs.declared.record.DomainRecord.{DomainRecord as AnyRecord};

/// The text of a valid record reads as that record, in the record's domain.
pub fn domain_text_reads_back()
    ensures { (r : AnyRecord) → IsValid r → read_domain r.sduuid (domain_text r) ≡ Ok r }
{}

/// The text of a valid record has at most 8,192 bytes.
pub fn domain_text_is_short()
    ensures { (r : AnyRecord) → IsValid r → length (domain_text r) ≤ 8192 }
{}
