// The documents' number and place of an answer: every answer is a `Result`, its refusal has a number and a place, and what is accepted has 0 and 0. Each crate
// says the numbers of its own refusals; this one knows none of them.

#![tactic(auto)]

ghost use Rattle.std.specs.Prelude.{◌≡◌, ℕ};
ghost use Rattle.answers.specs.Numbers.{or_zero};

/// What has the documents' number, and a place.
pub trait Numbered {
    ghost number_of: { Self → ℕ };

    ghost place_of: { Self → ℕ };

    /// The number; 0 for what is accepted.
    fn number(&self) -> u8
        ensures { result ≡ number_of self.now };

    /// The place; 0 where there is none.
    fn place(&self) -> usize
        ensures { result ≡ place_of self.now };
}

impl<T, E: Numbered> Numbered for Result<T, E> {
    ghost number_of = { or_zero E.number_of };

    ghost place_of = { or_zero E.place_of };

    fn number(&self) -> u8 {
        match self {
            Ok(_) => 0,
            Err(e) => e.number(),
        }
    }

    fn place(&self) -> usize {
        match self {
            Ok(_) => 0,
            Err(e) => e.place(),
        }
    }
}
