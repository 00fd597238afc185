// Writing a domain's text.
ghost use Rattle.std.specs.Prelude.{◌≡◌, ◌≤◌, ◌<◌, ℕ, ◌+◌, ◌^◌, ◌++◌, ◌∷◌, List, length, take, map, decimal};
ghost use Rattle.std.specs.List.{concat};
ghost use Rattle.kv_text.specs.Text.{line, whole, text_of};
ghost use Rattle.kv_text.specs.Written.{written, room, buffer};
ghost use Rattle.sd_names.specs.Key.{key_name};
ghost use Rattle.sha1.specs.Sha1.{Holds, sha1};
ghost use Rattle.domain_meta.specs.Checksum.{checksum_of};
ghost use Rattle.arrayvec.specs.ArrayVec.{array_vec_len};
ghost use Rattle.domain_meta.specs.Text.{HasShortTexts, behind, domain_pairs, domain_text, domain_text_of, domains_text, role_text};

use crate::record::DomainRecord;
use crate::values::digest_text;
use arrayvec::ArrayVec;
use itoa::Buffer;
use kv_text::KvWriter;
use sd_names::{Id, Key, Role};
use sha1::Sha1;

// Writes a line, and adds it to what is digested.
fn push(writer: &mut KvWriter<'_>, hasher: &mut Sha1, key: Key, value: &[u8])
    requires fits { length value.now + 16 ≤ length (room writer.old) }
    ensures written { written writer.new ≡ written writer.old ++ line (key_name key) value.now }
    ensures left { length (room writer.old) ≤ length (room writer.new) + length value.now + 16 }
    ensures whole { length (written writer.new) + length (room writer.new) ≡ length (written writer.old) + length (room writer.old) }
    ensures buffer { (buffer writer.new).ghost_name ≡ (buffer writer.old).ghost_name }
    ensures digested { (m : List ℕ) → Holds hasher.old m → Holds hasher.new (m ++ (key_name key ++ 61 ∷ value.now)) }
{
    let name = key.name().as_bytes();
    writer.push(name, value);
    hasher.update(name);
    hasher.update(b"=");
    hasher.update(value);
}

// Writes a line whose value is a number.
fn push_number(writer: &mut KvWriter<'_>, hasher: &mut Sha1, key: Key, number: u64)
    requires fits { 36 ≤ length (room writer.old) }
    ensures written { written writer.new ≡ written writer.old ++ line (key_name key) (decimal number) }
    ensures left { length (room writer.old) ≤ length (room writer.new) + 36 }
    ensures whole { length (written writer.new) + length (room writer.new) ≡ length (written writer.old) + length (room writer.old) }
    ensures buffer { (buffer writer.new).ghost_name ≡ (buffer writer.old).ghost_name }
    ensures digested { (m : List ℕ) → Holds hasher.old m → Holds hasher.new (m ++ (key_name key ++ 61 ∷ decimal number)) }
    ensures number { number < 2 ^ 64 }
{
    let mut digits = Buffer::new();
    push(writer, hasher, key, digits.format(number).as_bytes());
}

fn role_text(role: Role) -> &'static [u8]
    ensures text { result.now ≡ role_text role }
    ensures short { length result.now ≤ 7 }
{
    match role {
        Role::Master => b"Master",
        Role::Regular => b"Regular",
    }
}

// Puts a domain behind those that are written.
fn push_domain(text: &mut ArrayVec<u8, 176>, id: &Id)
    requires { array_vec_len text.old + 44 ≤ 176 }
    ensures items { text.new.items ≡ behind text.old.items (domain_text_of id.now) }
    ensures left { array_vec_len text.new ≤ array_vec_len text.old + 44 }
{
    if !text.is_empty() {
        text.push(b',');
    }
    text.try_extend_from_slice(&id.text()).unwrap();
    text.try_extend_from_slice(b":Active").unwrap();
}

// The domains of a pool, of which there are at most four, with a comma between each two. Each has 43 bytes, and
// with its comma 44.
fn domains_text(ids: &[Id]) -> ArrayVec<u8, 176>
    requires { length ids.now ≤ 4 }
    ensures { result.items ≡ domains_text ids.now }
{
    let mut text = ArrayVec::new();
    for id in ids {
        push_domain(&mut text, id);
    }
    text
}

// Writes the lines that the checksum covers.
fn push_lines(writer: &mut KvWriter<'_>, hasher: &mut Sha1, domain: &DomainRecord)
    requires short { HasShortTexts domain.now }
    requires fits { 5000 ≤ length (room writer.old) }
    ensures written { written writer.new ≡ written writer.old ++ text_of (domain_pairs domain.now) }
    ensures left { length (room writer.old) ≤ length (room writer.new) + 4600 }
    ensures whole { length (written writer.new) + length (room writer.new) ≡ length (written writer.old) + length (room writer.old) }
    ensures buffer { (buffer writer.new).ghost_name ≡ (buffer writer.old).ghost_name }
    ensures digested { (m : List ℕ) → Holds hasher.old m → Holds hasher.new (m ++ concat (map whole (domain_pairs domain.now))) }
    ensures version { domain.now.version < 2 ^ 64 }
    ensures master_version { domain.now.master_version < 2 ^ 64 }
{
    push(writer, hasher, Key::Class, b"Data");
    push(
        writer,
        hasher,
        Key::Description,
        domain.description.as_slice(),
    );
    push_number(writer, hasher, Key::MasterVersion, domain.master_version);
    let domains = domains_text(domain.domains.as_slice());
    push(writer, hasher, Key::PoolDomains, domains.as_slice());
    push(writer, hasher, Key::PoolUuid, &domain.pool.text());
    push(writer, hasher, Key::Role, role_text(domain.role));
    push(writer, hasher, Key::SdUuid, &domain.sduuid.text());
    push_number(writer, hasher, Key::Version, domain.version);
}

/// Writes the text of a record from the buffer's start on, and gives its length in bytes, which is at most 8,192. The
/// record's description has at most 4,096 bytes and no line feed, and at most four domains are listed, as in every
/// record that `read` gives.
#[tactic(auto, unfolding(crate::specs::Text::domain_text))]
pub fn write_into(domain: &DomainRecord, into: &mut [u8; 8192]) -> usize
    requires { HasShortTexts domain.now }
    ensures len { result ≡ length (domain_text domain.now) }
    ensures short { result ≤ 8192 }
    ensures text { take result into.new ≡ domain_text domain.now }
{
    let mut writer = KvWriter::new(into);
    let mut hasher = Sha1::new();
    push_lines(&mut writer, &mut hasher, domain);
    let digest = digest_text(&hasher.finalize());
    writer.push(Key::ShaCksum.name().as_bytes(), &digest);
    writer.finish()
}
