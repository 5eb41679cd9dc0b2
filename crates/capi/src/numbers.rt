// A profile from the five numbers that C hands in, which the interface keeps apart.
ghost use Rattle.std.specs.Prelude.{◌≡◌};
ghost use Rattle.capi.specs.Numbers.{profile_of};

use profile::Profile;

pub(crate) fn profile_of(n: usize, r: usize, b: usize, limit: usize, depth: usize) -> Profile
    ensures { result ≡ profile_of n r b limit depth }
{
    Profile {
        n,
        r,
        b,
        limit,
        depth,
    }
}
