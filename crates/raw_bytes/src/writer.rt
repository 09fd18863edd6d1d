// The writer of lines into a caller's bytes. Each method writes a text from the writer's place on,
// and the writer comes to the place after it. What would pass the end of the bytes is not written but
// counted, so one pass over no bytes at all tells how long a text is. Places stop at the largest number.
ghost use Rattle.std.specs.Prelude.{◌≡◌, [], ◌∷◌};
ghost use Rattle.raw_bytes.specs.Numbers.{two_bytes, NumberLaws};
ghost use Rattle.raw_bytes.specs.Writing.{Written, WritingLaws};

use itoa::{Buffer, Integer};

// The bytes that are written to, and the place that has been come to.
#[derive(Drop)]
pub struct Writer<'a> {
    pub out: &'a mut [u8],
    pub at: usize,
}

impl Writer<'_> {
    // Writes one byte.
    pub fn put(&mut self, byte: u8)
        ensures { Written self.old (byte ∷ []) self.new }
    {
        if self.at < self.out.len() {
            self.out[self.at] = byte;
        }
        self.at = self.at.saturating_add(1);
    }

    // Writes a text.
    pub fn put_text(&mut self, text: &[u8])
        ensures { Written self.old text.now self.new }
    {
        for byte in text {
            self.put(*byte);
        }
    }

    // Writes a number as two bytes, the lower first.
    pub fn put_u16(&mut self, n: u16)
        ensures { Written self.old (two_bytes n) self.new }
    {
        self.put_text(&n.to_le_bytes());
    }

    // Writes a number in base ten, with no leading zero; before it a minus sign where it is below 0.
    pub fn put_number<I: Integer>(&mut self, n: I)
        ensures { Written self.old (I.text n) self.new }
    {
        self.put_text(Buffer::new().format(n).as_bytes());
    }
}

// What it means that a text was written, place by place and text after text, and that written
// numbers and read ones are each other's inverse: theorems, which stand here to be owed. There is
// nothing to run.
pub fn writing_is_lawful()
    ensures writing { WritingLaws }
    ensures numbers { NumberLaws }
{}
