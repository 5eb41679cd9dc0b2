// The second pass over a sheet of which every block has a codeword: the messages go to the payload. An unchanged block's message is copied from the
// sheet; a changed block is gathered again and filled by what the first pass found, or in spot mode corrected again.
ghost use Rattle.std.specs.Prelude.{◌≡◌, ◌≢◌, ℕ, Option, ◌*◌, ◌<◌, length, drop};
ghost use Rattle.profile.specs.Profile.{InRange, message_length};
ghost use Rattle.sheet.specs.Modes.{word_in};
ghost use Rattle.sheet.specs.Sheet.{read_block, codeword, sheet_payload};
ghost use Rattle.sheet.specs.Steps.{Room, Found, FoundAt};

use crate::found::{Findings, Run};
use crate::reader::Reader;
use crate::{Mode, gather};
use profile::Profile;
use register::Register;

// A changed block in burst mode: its run is filled by the error that was kept, or else by the block's own cells. The look accepted it, so no fill refuses.
fn fill_burst(p: Profile, run: Run, error: Option<Register>, read: &[u8], out: &mut [u8])
    requires in_range { InRange p }
    requires room { Room p read.now out.old }
    requires found { (run.size ≢ 0) × Found Mode.Burst p read.now run error }
    ensures { out.new ≡ word_in Mode.Burst p read.now }
{
    let start = usize::from(run.start);
    let size = usize::from(run.size);
    let _ = match error {
        Some(error) => block::fill_by(p, read, start, size, error, out),
        None => block::fill(p, read, start, size, out),
    };
}

// A changed block, filled or corrected by its mode.
fn fill_in(mode: Mode, p: Profile, run: Run, error: Option<Register>, read: &[u8], out: &mut [u8])
    requires in_range { InRange p }
    requires room { Room p read.now out.old }
    requires found { (run.size ≢ 0) × Found mode p read.now run error }
    ensures { out.new ≡ word_in mode p read.now }
{
    match mode {
        Mode::Burst => fill_burst(p, run, error, read, out),
        Mode::Spots => {
            let _ = spots::correct(p, read, out);
        }
    }
}

impl Reader<'_> {
    // The message of block d: from the sheet where the block is unchanged, and else of the codeword, which is filled into `word`.
    fn write_message(
        &self,
        d: usize,
        findings: &Findings,
        scratch: &mut [u8],
        word: &mut [u8],
        message: &mut [u8],
    )
        requires d_lt_depth { d < self.now.p.depth }
        requires room { Room self.now.p scratch.old word.old }
        requires message_len { length message.old ≡ message_length self.now.p }
        requires found { FoundAt self.now.mode self.now.p (read_block self.now.p self.now.sheet.now d) d findings.now }
        ensures { message.new ≡ drop self.now.p.r (codeword self.now.mode self.now.p self.now.sheet.now d) }
    {
        let r = self.p.r;
        let depth = self.p.depth;
        let run = findings.run(d);
        if run.size == 0 {
            let from = r * depth;
            gather(&self.sheet[from..], d, depth, message);
            return;
        }
        gather(self.sheet, d, depth, scratch);
        fill_in(self.mode, self.p, run, findings.error(d), scratch, word);
        message.copy_from_slice(&word[r..]);
    }

    // The messages of all blocks, by what was found of each.
    pub(crate) fn write_messages(
        &self,
        findings: &Findings,
        scratch: &mut [u8],
        word: &mut [u8],
        payload: &mut [u8],
    )
        requires room { Room self.now.p scratch.old word.old }
        requires payload_len { length payload.old ≡ self.now.p.depth * message_length self.now.p }
        requires found { (d : ℕ) → d < self.now.p.depth → FoundAt self.now.mode self.now.p (read_block self.now.p self.now.sheet.now d) d findings.now }
        ensures { payload.new ≡ sheet_payload self.now.mode self.now.p self.now.sheet.now }
    {
        let k = self.p.message_length();
        // Not `chunks_exact_mut`: of chunks that were lent a proof doesn't know what they hold afterwards.
        for d in 0..self.p.depth {
            let a = d * k;
            self.write_message(d, findings, scratch, word, &mut payload[a..a + k]);
        }
    }
}
