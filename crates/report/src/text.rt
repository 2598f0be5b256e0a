// A text that is written into a buffer, one part behind the other.
ghost use Rattle.std.specs.Prelude.{◌≡◌, ◌*◌, length};
ghost use Rattle.hex.specs.Hex.{encode_lower};
ghost use Rattle.report.specs.Texts.{HasRoom, Writes};

// The buffer, and how many of its bytes are written; these stand first. No `Vec`: there is no heap.
#[derive(Drop)]
pub struct TextWriter<'a> {
    text: &'a mut [u8],
    size: usize,
}

impl<'a> TextWriter<'a> {
    pub fn new(text: &'a mut [u8]) -> TextWriter<'a>
        ensures same_buffer { result.text.ghost_name ≡ text.entry.ghost_name }
        ensures untouched { result.text.now ≡ text.old }
        ensures empty { result.size ≡ 0 }
    {
        TextWriter { text, size: 0 }
    }

    pub fn size(&self) -> usize
        ensures { result ≡ self.now.size }
    {
        self.size
    }

    pub fn bytes(&mut self, bytes: &[u8])
        requires { HasRoom self.old (length bytes.now) }
        ensures { Writes self.old bytes.now self.new }
    {
        let end = self.size + bytes.len();
        self.text[self.size..end].copy_from_slice(bytes);
        self.size = end;
    }

    // Two lowercase hexadecimal digits for each byte.
    pub fn digits(&mut self, bytes: &[u8])
        requires { HasRoom self.old (2 * length bytes.now) }
        ensures { Writes self.old (encode_lower bytes.now) self.new }
    {
        let end = self.size + 2 * bytes.len();
        hex::encode_to_slice(bytes, &mut self.text[self.size..end]).unwrap();
        self.size = end;
    }
}
