// The tester's list of a block for C and Rust: it calls the entry of the crate `candidates`, and its contract is that entry's answer.
ghost use Rattle.std.specs.Prelude.{◌≡◌};
ghost use Rattle.candidates.specs.Candidates.{list_answer, list_leaves};
ghost use Rattle.profile.specs.Numbers.{early_number};
ghost use Rattle.candidates.specs.Numbers.{listed_count};
ghost use Rattle.capi.specs.Numbers.{profile_of};

use crate::numbers::profile_of;
use answers::Numbered;

/// Lists the runs by which a block goes to each codeword within the limit: `count` pairs of a start and a length, written to `pairs`.
#[unsafe(no_mangle)]
pub extern "C" fn tishwabe_block_candidates(
    n: usize,
    r: usize,
    b: usize,
    limit: usize,
    depth: usize,
    read: &[u8],
    pairs: &mut [u8],
    count: &mut usize,
) -> usize
    ensures value { result ≡ early_number (list_answer (profile_of n r b limit depth) read.now pairs.old) }
    ensures count_after { count.new ≡ listed_count (list_answer (profile_of n r b limit depth) read.now pairs.old) }
    ensures pairs_after { pairs.new ≡ list_leaves (profile_of n r b limit depth) read.now pairs.old }
{
    let answer = candidates::list(profile_of(n, r, b, limit, depth), read, pairs);
    *count = answer.unwrap_or(0);
    usize::from(answer.number())
}
