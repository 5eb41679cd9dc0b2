// Text put into a lent buffer from its first byte on, as far as the buffer goes. A `Writer` has the buffer and the number of bytes written, and each of its
// methods promises which text it put there.
ghost use Rattle.std.specs.Prelude.{◌∷◌, []};
ghost use Rattle.listing_text.specs.Text.{decimal, field};
ghost use Rattle.listing_text.specs.Puts.{Puts};

#[derive(Drop)]
pub struct Writer<'a> {
    pub out: &'a mut [u8],
    pub at: usize,
}

impl Writer<'_> {
    pub fn put(&mut self, b: u8)
        ensures { Puts (b ∷ []) self.old self.new }
    {
        if self.at < self.out.len() {
            self.out[self.at] = b;
            self.at += 1;
        }
    }

    pub fn put_text(&mut self, text: &[u8])
        ensures { Puts text.now self.old self.new }
    {
        for b in text {
            self.put(*b);
        }
    }

    pub fn put_decimal(&mut self, n: usize)
        ensures { Puts (decimal n) self.old self.new }
    {
        let digit = (48 + n % 10) as u8;
        let has_more = 10 <= n;
        if has_more {
            self.put_decimal(n / 10);
        }
        self.put(digit);
    }

    /// A number, and the byte that ends it.
    pub fn put_field(&mut self, n: usize, last: u8)
        ensures { Puts (field n last) self.old self.new }
    {
        self.put_decimal(n);
        self.put(last);
    }
}
