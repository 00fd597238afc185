// Lines that are written one behind the other.
ghost use Rattle.std.specs.Prelude.{◌≡◌, ◌≤◌, ◌+◌, ◌++◌, [], length, drop};

/// Writes the lines of a text into a buffer, from its start on.
pub struct KvWriter<'a> {
    into: &'a mut [u8],
    len: usize,
    ghost in_buffer: { len ≤ length into.now },
}

impl<'a> KvWriter<'a> {
    ghost use Rattle.kv_text.specs.Text.{line};
    ghost use Rattle.kv_text.specs.Written.{written, room, buffer};

    /// A writer into this buffer, of which it leaves alone what no line takes.
    pub fn new(into: &'a mut [u8]) -> KvWriter<'a>
        ensures written { written result ≡ [] }
        ensures room { room result ≡ into.old }
        ensures buffer { (buffer result).ghost_name ≡ into.entry.ghost_name }
    {
        KvWriter { into, len: 0 }
    }

    // Writes these bytes.
    fn append(&mut self, bytes: &[u8])
        requires { length bytes.now ≤ length (room self.old) }
        ensures written { written self.new ≡ written self.old ++ bytes.now }
        ensures room { room self.new ≡ drop (length bytes.now) (room self.old) }
        ensures left { length (room self.new) + length bytes.now ≡ length (room self.old) }
        ensures buffer { (buffer self.new).ghost_name ≡ (buffer self.old).ghost_name }
    {
        let start = self.len;
        let end = start + bytes.len();
        let into = &mut *self.into;
        into[start..end].copy_from_slice(bytes);
        self.len = end;
    }

    /// Writes a line of this key and this value. It has to fit in what is left of the buffer: key and value
    /// and 2 bytes.
    pub fn push(&mut self, key: &[u8], value: &[u8])
        requires { length (line key.now value.now) ≤ length (room self.old) }
        ensures written { written self.new ≡ written self.old ++ line key.now value.now }
        ensures room { room self.new ≡ drop (length (line key.now value.now)) (room self.old) }
        ensures left { length (room self.new) + length (line key.now value.now) ≡ length (room self.old) }
        ensures buffer { (buffer self.new).ghost_name ≡ (buffer self.old).ghost_name }
    {
        self.append(key);
        self.append(b"=");
        self.append(value);
        self.append(b"\n");
    }

    /// How many bytes were written.
    pub fn finish(self) -> usize
        ensures len { result ≡ length (written self.entry) }
        ensures buffer { self.exit.0.now ≡ written self.entry ++ room self.entry }
    {
        let KvWriter { into: _, len } = self;
        len
    }
}
