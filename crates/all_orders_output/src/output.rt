// The text that is printed, in a buffer that holds the longest one. The methods that put something have a `requires`: they are the crate's own.

ghost use Rattle.std.specs.Prelude.{◌≡◌, ◌≤◌, length, drop};
ghost use Rattle.all_orders_output.specs.Output.{longest_text, zeros};

use base::Refusal;

// Room for the longest text: 128 lines of at most 28 bytes.
pub const LONGEST_TEXT: usize = 3_584;

// The first `count` bytes are the output; the others are 0. The program has no heap, so the text is an array and not a `String`.
#[derive(Clone, Copy)]
pub struct Output {
    pub bytes: [u8; LONGEST_TEXT],
    pub count: usize,
    ghost room: { length bytes ≡ longest_text },
    ghost within: { count ≤ longest_text },
    ghost blank: { drop count bytes ≡ drop count zeros },
}

impl Output {
    ghost use Rattle.std.specs.Prelude.{◌≡◌, ◌≤◌, [], ◌++◌, length, take};
    ghost use Rattle.base.specs.Refusal.{refusal_number};
    ghost use Rattle.all_orders_output.specs.Decimal.{decimal};
    ghost use Rattle.all_orders_output.specs.Text.{spaced, line_of, refusal_line};
    ghost use Rattle.all_orders_output.specs.Output.{longest_text};
    ghost use Rattle.all_orders_output.specs.Local.{text_of};

    // No text yet.
    pub(crate) fn new() -> Output
        ensures { text_of result ≡ [] }
    {
        Output {
            bytes: [0u8; LONGEST_TEXT],
            count: 0,
        }
    }

    // Puts bytes after the text.
    fn put(&mut self, bytes: &[u8])
        requires { length (text_of self.old ++ bytes.now) ≤ longest_text }
        ensures { text_of self.new ≡ text_of self.old ++ bytes.now }
    {
        let end = self.count + bytes.len();
        self.bytes[self.count..end].copy_from_slice(bytes);
        self.count = end;
    }

    // Puts a number in decimal. There is no heap and so no `String`; of `write!` the library promises the text
    // where it succeeds, and a number that is put here always is.
    fn put_decimal(&mut self, number: u64)
        requires { length (text_of self.old ++ decimal number) ≤ longest_text }
        ensures { text_of self.new ≡ text_of self.old ++ decimal number }
    {
        let mut digits = itoa::Buffer::new();
        self.put(digits.format(number).as_bytes());
    }

    // Puts the stops of an order, each after one space.
    fn put_stops(&mut self, order: &[u16])
        requires { length (text_of self.old ++ spaced order.now) ≤ longest_text }
        ensures { text_of self.new ≡ text_of self.old ++ spaced order.now }
    {
        for stop in order {
            self.put(b" ");
            self.put_decimal(u64::from(*stop));
        }
    }

    // Puts a line: the total, the stops by place, byte 10.
    pub(crate) fn put_line(&mut self, total: u64, order: &[u16])
        requires { length (text_of self.old ++ line_of total order.now) ≤ longest_text }
        ensures { text_of self.new ≡ text_of self.old ++ line_of total order.now }
    {
        self.put_decimal(total);
        self.put_stops(order);
        self.put(b"\n");
    }

    // The bytes of the output. One line, as of `plan_output`: the two types keep other facts of other sizes.
    pub fn as_bytes(&self) -> &[u8]
        ensures { result.now ≡ take self.now.count self.now.bytes }
    {
        &self.bytes[..self.count]
    }

    // The number of a refusal, and byte 10.
    pub(crate) fn refusal(refusal: Refusal) -> Output
        ensures { text_of result ≡ refusal_line (refusal_number refusal) }
    {
        let mut out = Output::new();
        out.put_decimal(u64::from(refusal.number()));
        out.put(b"\n");
        out
    }
}
