// The code of a profile in range: the profile with the low cells of its generator, as the highest of a register. Both facts stay with the value, so what is
// divided by it needs no further condition.
ghost use Rattle.std.specs.Prelude.{◌≡◌, ◌≤◌, length};
ghost use Rattle.code.specs.Code.{generator, remainder};
ghost use Rattle.code.specs.Run.{shifted_remainder};
ghost use Rattle.register.specs.Words.{cells};
ghost use Rattle.words.specs.Cells.{pad_to};
ghost use Rattle.profile.specs.Profile.{InRange};
ghost use Rattle.block.specs.Block.{check_cells};
ghost use Rattle.block.specs.Found.{generator_on_top};

use profile::Profile;
use register::Register;

#[derive(Clone, Copy)]
pub(crate) struct Code {
    pub profile: Profile,
    pub generator: Register,
    pub ghost in_range: { InRange profile },
    pub ghost on_top: { cells generator ≡ generator_on_top profile },
}

impl Code {
    pub(crate) fn new(profile: Profile) -> Code
        requires { InRange profile }
        ensures { result.profile ≡ profile }
    {
        let generator = register::generator_top(profile.b, profile.r);
        Code { profile, generator }
    }

    // The r check cells of a message, as the lowest of the register.
    pub(crate) fn checks(&self, message: &[u8]) -> Register
        ensures { cells result ≡ pad_to 64 (check_cells self.now.profile.b self.now.profile.r message.now) }
    {
        register::lowered(register::divide(self.generator, message), self.profile.r)
    }

    // The remainder of cells by the generator, as the lowest r cells of the register; fewer than r cells are their own remainder.
    pub(crate) fn remainder(&self, read: &[u8]) -> Register
        ensures { cells result ≡ pad_to 64 (remainder self.now.profile.r (generator self.now.profile.b self.now.profile.r) read.now) }
    {
        let low = self.profile.r.min(read.len());
        let checks = self.checks(&read[low..]);
        register::add(register::load(&read[..low]), checks)
    }

    // The shifted remainder at a start: the cells from there on are divided as ever, and those below it backwards.
    pub(crate) fn shifted(&self, read: &[u8], start: usize) -> Register
        requires { start ≤ length read.now }
        ensures { cells result ≡ pad_to 64 (shifted_remainder self.now.profile.b self.now.profile.r start read.now) }
    {
        let back = register::generator_bottom(self.generator, self.profile.r);
        let below = register::divide_back(back, &read[..start]);
        register::add(self.remainder(&read[start..]), below)
    }
}
