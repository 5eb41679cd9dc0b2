// The first pass over a sheet: every block is gathered into the scratch and judged before a byte of the payload is written. What was found is kept for
// the second pass (found.rt).
ghost use Rattle.std.specs.Prelude.{◌≡◌, ◌<◌, length};
ghost use Rattle.profile.specs.Profile.{InRange};
ghost use Rattle.sheet.specs.Sheet.{read_block};
ghost use Rattle.sheet.specs.Steps.{Room, JudgedAs, JudgedAll, refused_at};

use crate::found::{Findings, Run};
use crate::reader::Reader;
use crate::{Mode, Refusal, gather};
use block::{Correction, Judgement, Verdict};
use profile::Profile;

// A block in spot mode. Its codeword goes to `word` and is not kept.
fn judge_spots(p: Profile, read: &[u8], word: &mut [u8]) -> Judgement
    requires in_range { InRange p }
    requires room { Room p read.now word.old }
    ensures { JudgedAs Mode.Spots p read.now result }
{
    let verdict = spots::correct(p, read, word);
    Judgement {
        verdict,
        error: register::blank(),
    }
}

fn judge_in(mode: Mode, p: Profile, read: &[u8], word: &mut [u8]) -> Judgement
    requires in_range { InRange p }
    requires room { Room p read.now word.old }
    ensures { JudgedAs mode p read.now result }
{
    match mode {
        Mode::Burst => block::judge(p, read),
        Mode::Spots => judge_spots(p, read, word),
    }
}

// A block's verdict is the sheet's refusal, with the block's number, where it is none of a correction.
fn of_block(number: usize, verdict: Verdict) -> Result<Correction, Refusal>
    ensures { result ≡ refused_at number verdict }
{
    verdict.map_err(|_| Refusal::Block { number, verdict })
}

impl Reader<'_> {
    // Block d, gathered into the scratch.
    fn judge_block(&self, d: usize, scratch: &mut [u8], word: &mut [u8]) -> Judgement
        requires d_lt_depth { d < self.now.p.depth }
        requires room { Room self.now.p scratch.old word.old }
        ensures { JudgedAs self.now.mode self.now.p (read_block self.now.p self.now.sheet.now d) result }
    {
        gather(self.sheet, d, self.p.depth, scratch);
        judge_in(self.mode, self.p, scratch, word)
    }

    // Every block of the sheet in turn, or the first that is refused. What was found is kept, and the answer is how many blocks are changed.
    pub(crate) fn judge_blocks(
        &self,
        scratch: &mut [u8],
        word: &mut [u8],
        findings: &mut Findings,
    ) -> Result<usize, Refusal>
        requires { Room self.now.p scratch.old word.old }
        ensures { JudgedAll self.now.mode self.now.p self.now.sheet.now result findings.new }
    {
        let blocks = self.p.depth;
        let mut changed = 0;
        for d in 0..blocks {
            let judged = self.judge_block(d, scratch, word);
            let correction = of_block(d, judged.verdict)?;
            let run = Run::of(correction);
            findings.keep(d, run, judged.error);
            changed += usize::from(run.size != 0);
        }
        Ok(changed)
    }
}
