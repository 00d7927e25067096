// Opening a session.
ghost use Rattle.std.specs.Prelude.{◌≡◌, if◌then◌else◌};
ghost use Rattle.control.specs.Arrangements.{meant};
ghost use Rattle.checking.specs.Answers.{Checked};
ghost use Rattle.pairs.specs.Numbered.{numbered};
ghost use Rattle.sessions.specs.Calls.{Does, first_site, is_clear, opened};
ghost use Rattle.sessions.specs.Histories.{ClearExactly};
ghost use Rattle.sessions.specs.Status.{running, status};

use super::{Open, Session, Site};
use crate::call::{Call, Reply};
use checking::{Refusal as Unchecked, Verdict, check};
use control::Arrangement;
use pairs::Numbered;
use plants::Plant;
use sites::by_number::first_estimate;
use theory::Move;

impl Session {
    // Runs the check. If it is clear, plant and estimates start at their first, with a round without ballots; otherwise the
    // session stays as it was found. Cells and trace are lent to the check.
    pub fn open<P: Plant, S: Plant>(
        &mut self,
        arrangement: &Arrangement<'_, P, S>,
        cells: &mut [u64],
        trace: &mut [Move],
    ) -> Result<Verdict, Unchecked>
        ensures does { Does (meant arrangement.now) (status self.old) Call.Open (Reply.Checked result) (status self.new) }
        ensures checked { Checked (meant arrangement.now) cells.old cells.new trace.old trace.new result }
        ensures after { status self.new ≡ (if is_clear result then opened (meant arrangement.now) else status self.old) }
        ensures clear { ClearExactly (meant arrangement.now) result }
    {
        let verdict = check(arrangement, cells, trace)?;
        if let Verdict::Clear = verdict {
            let pairs = Numbered::of(arrangement).unwrap();
            self.open = Some(Open::new(&pairs));
        }
        Ok(verdict)
    }
}

impl Open {
    // A session at its start.
    fn new<P: Plant, S: Plant>(pairs: &Numbered<'_, P, S>) -> Open
        ensures { running result ≡ opened (numbered pairs.now) }
    {
        let arrangement = pairs.arrangement;
        Open {
            plant_count: arrangement.plant.count(),
            spec_count: arrangement.spec.count(),
            site_count: arrangement.problem.sites(),
            state: arrangement.plant.first(),
            sites: [1, 2, 3, 4].map(|site| first_site(pairs, site)),
            settled: None,
        }
    }
}

// A site's record at the start.
fn first_site<P: Plant, S: Plant>(pairs: &Numbered<'_, P, S>, site: u8) -> Site
    ensures { result ≡ first_site (numbered pairs.now) site }
{
    Site {
        estimate: first_estimate(pairs, site),
        ballot: None,
    }
}
