// Laws of the definitions of texts: contracts of functions that do nothing.
ghost use Rattle.std.specs.Prelude.{◌≡◌, ◌++◌, List, All, map, codes, true, Ok, Some};
ghost use Rattle.sd_names.specs.Id.{IsIdBytes, id_text};
ghost use Rattle.sd_names.specs.declared.id.Id.{Id};
ghost use Rattle.kv_text.specs.Ids.{this_id};
ghost use Rattle.kv_text.specs.Text.{KeyValue, IsWritable, text_of, items, has_eof};

/// Pairs that were written read as those pairs, in order: alone, and where a line `EOF` closes them. No key has a
/// line feed or an `=`, and no value a line feed.
pub fn written_pairs_read_back()
    ensures open { (pairs : List KeyValue) → All IsWritable pairs → items (text_of pairs) ≡ map Ok pairs }
    ensures closed { (pairs : List KeyValue) → All IsWritable pairs → items (text_of pairs ++ codes "EOF\n") ≡ map Ok pairs }
    ensures ended { (pairs : List KeyValue) → All IsWritable pairs → has_eof (text_of pairs ++ codes "EOF\n") ≡ true }
{}

/// An identifier that was written as a value reads as itself.
pub fn identifiers_read_back()
    ensures { (id : Id) → IsIdBytes id.0 → this_id id (id_text id.0) ≡ Some id }
{}
