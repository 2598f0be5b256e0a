// Single lines of the text.
ghost use Rattle.std.specs.Prelude.{◌++◌, ◌<◌};
ghost use Rattle.report.specs.Report.{hexadecimal, decimal, space, line_feed, message_line, cut_line};
ghost use Rattle.report.specs.Texts.{HasRoom, Writes};

use crate::text::TextWriter;

impl TextWriter<'_> {
    // "four lowercase hexadecimal digits"
    fn hexadecimal(&mut self, n: u16)
        requires { HasRoom self.old 4 }
        ensures { Writes self.old (hexadecimal n) self.new }
    {
        self.digits(&n.to_be_bytes());
    }

    // "decimal", for numbers below 100,000, as the definition has five digits: a clause, since sizes and places come as `usize`
    fn decimal(&mut self, n: usize)
        requires range { n < 100000 }
        requires room { HasRoom self.old 5 }
        ensures { Writes self.old (decimal n) self.new }
    {
        let mut digits = itoa::Buffer::new();
        self.bytes(digits.format(n).as_bytes());
    }

    // A number, and the line feed that ends its line.
    fn line_end(&mut self, n: usize)
        requires range { n < 100000 }
        requires room { HasRoom self.old 6 }
        ensures { Writes self.old (decimal n ++ line_feed) self.new }
    {
        self.decimal(n);
        self.bytes(b"\n");
    }

    // A word of two letters and a space, a kind, a number.
    fn line(&mut self, word: &[u8; 3], kind: u16, n: usize)
        requires range { n < 100000 }
        requires room { HasRoom self.old 14 }
        ensures { Writes self.old (word.now ++ (hexadecimal kind ++ (space ++ (decimal n ++ line_feed)))) self.new }
    {
        self.bytes(word);
        self.hexadecimal(kind);
        self.bytes(b" ");
        self.line_end(n);
    }

    // "`ok` or `no`, then the message's kind .., then the length of the answer's body or the refusal"
    pub(crate) fn message(&mut self, kind: u16, number: u16, size: usize)
        requires range { size < 100000 }
        requires room { HasRoom self.old 14 }
        ensures { Writes self.old (message_line kind number size) self.new }
    {
        if number == 0 {
            return self.line(b"ok ", kind, size);
        }
        self.line(b"no ", kind, number as usize)
    }

    // "`cut` and the byte place"
    pub(crate) fn cut(&mut self, place: usize)
        requires range { place < 100000 }
        requires room { HasRoom self.old 10 }
        ensures { Writes self.old (cut_line place) self.new }
    {
        self.bytes(b"cut ");
        self.line_end(place);
    }
}
