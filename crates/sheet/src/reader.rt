// A sheet that is read: its two passes take the same mode, profile and cells, and the facts that both rest on are said here once.
ghost use Rattle.std.specs.Prelude.{◌≡◌, ◌<◌, ◌*◌, ℕ, length, slice_index};
ghost use Rattle.profile.specs.Profile.{InRange};

use crate::found::Findings;
use crate::{Mode, Refusal};
use profile::Profile;

/// A sheet of D × n cells, of a profile in range, and the mode in which its blocks are read.
#[derive(Clone, Copy)]
pub(crate) struct Reader<'a> {
    pub mode: Mode,
    pub p: Profile,
    pub sheet: &'a [u8],
    ghost in_range: { InRange p },
    ghost count: { length sheet.now ≡ p.depth * p.n },
    ghost bytes: { (i : ℕ) → slice_index sheet.now i < 256 },
}

impl Reader<'_> {
    ghost use Rattle.std.specs.Result.{is_ok};
    ghost use Rattle.lists.specs.Choice.{pick};
    ghost use Rattle.profile.specs.Profile.{message_length};
    ghost use Rattle.sheet.specs.Sheet.{sheet_answer, sheet_payload};
    ghost use Rattle.sheet.specs.Steps.{Room};

    // Both passes, with the scratch for the cells and `word` for the codeword of the block at hand.
    pub(crate) fn read(
        &self,
        scratch: &mut [u8],
        word: &mut [u8],
        payload: &mut [u8],
    ) -> Result<usize, Refusal>
        requires room { Room self.now.p scratch.old word.old }
        requires payload_len { length payload.old ≡ self.now.p.depth * message_length self.now.p }
        ensures value { result ≡ sheet_answer self.now.mode self.now.p self.now.sheet.now }
        ensures payload_after { payload.new ≡ pick (is_ok (sheet_answer self.now.mode self.now.p self.now.sheet.now)) (sheet_payload self.now.mode self.now.p self.now.sheet.now) payload.old }
    {
        let mut findings = Findings::new();
        let changed = self.judge_blocks(scratch, word, &mut findings)?;
        self.write_messages(&findings, scratch, word, payload);
        Ok(changed)
    }
}
