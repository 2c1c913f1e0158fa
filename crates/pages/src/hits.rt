// The hits of a page: its own bar's without the early ones, which in song bar 0 stay, then the early ones of the bar
// that follows.
ghost use Rattle.std.specs.Prelude.{map, ◌≡◌, ◌+◌, ◌-◌, ◌*◌, ◌<◌, ◌≤◌, length};
ghost use Rattle.laws.specs.Lists.{joined};
ghost use Rattle.laws.specs.Writes.{Wrote};
ghost use Rattle.composer.specs.Early.{is_early};
ghost use Rattle.pages.specs.Inner.Hits.{in_part, hits_in, own_part, HitsWithin, drum_run_of, heard_runs_of};
ghost use Rattle.pages.specs.Lane.{hit_bytes, run_of, InLane};
ghost use Rattle.pages.specs.Writable.{Writable};
ghost use Rattle.pages.specs.declared.hits.Part.{Part};
ghost use Rattle.pages.specs.declared.lane.Lane.{Lane};

use crate::bar::plays_drums;
use crate::edition::Edition;
use crate::event::Event;
use crate::lane::{Lane, Run};
use crate::paged::PagedSong;
use composer::compose::beat_s_of;
use composer::note::Hit;
use composer::score::Score;
use composer::timing::bar_start;

// Whether a hit's time is below its bar line.
fn is_early(beat_s: f32, h: Hit) -> bool
    ensures { result ≡ is_early beat_s h }
{
    h.at < bar_start(h.bar, beat_s)
}

// Which hits of a bar a page shows: all, those that are not early, or those that are. A value and no closure: a page
// keeps it, and the definitions name it.
#[derive(Clone, Copy, Debug, PartialEq, Eq)]
pub enum Part {
    All,
    Late,
    Early,
}

fn in_part(part: Part, beat_s: f32, h: Hit) -> bool
    ensures { result ≡ in_part part beat_s h }
{
    match part {
        Part::All => true,
        Part::Late => !is_early(beat_s, h),
        Part::Early => is_early(beat_s, h),
    }
}

// The hits of a run that are in a part.
pub(crate) fn put_part(buf: &mut [u8], at: usize, s: &Score, run: Run, part: Part) -> usize
    requires writable { Writable s.now }
    requires in_lane { InLane s.now Lane.Hits run }
    requires room { at + 10 * length (hits_in s.now part (run_of run s.now.hits.at)) ≤ length buf.old }
    ensures { Wrote buf.old buf.new at result (10 * length (hits_in s.now part (run_of run s.now.hits.at))) (joined (map hit_bytes (hits_in s.now part (run_of run s.now.hits.at)))) }
{
    let beat_s = beat_s_of(s.bpm);
    let hits = &s.hits.at[run.from..run.to];
    let mut o = at;
    for h in hits {
        if in_part(part, beat_s, *h) {
            o = h.put(buf, o, Edition::Two);
        }
    }
    o
}

// Where a page's hits stand in the lane, and how many they are: the own bar's that are in a part, and the next
// bar's that are early.
#[derive(Clone, Copy, Debug, PartialEq, Eq)]
pub struct HeardRuns {
    pub own: Run,
    pub part: Part,
    pub next: Run,
    pub count: usize,
}

// The early hits of song bar 0 stay, as no bar is before it.
fn own_part(bar: u64) -> Part
    ensures { result ≡ own_part bar }
{
    if bar == 0 { Part::All } else { Part::Late }
}

impl<'a> PagedSong<'a> {
    // How many hits of a run are in a part.
    fn part_count(&self, run: Run, part: Part) -> usize
        requires { InLane self.now.score.now Lane.Hits run }
        ensures value { result ≡ length (hits_in self.now.score.now part (run_of run self.now.score.now.hits.at)) }
        ensures upper_bound { result ≤ 98 }
    {
        let s = self.score;
        let beat_s = beat_s_of(s.bpm);
        let hits = &s.hits.at[run.from..run.to];
        hits.iter().filter(|h| in_part(part, beat_s, **h)).count()
    }

    // Where the hits drawn for song bar `bar` stand in the lane.
    fn drum_run(&self, bar: u64) -> Run
        ensures value { result ≡ drum_run_of self.now.score.now self.now.form.now bar }
        ensures in_lane { InLane self.now.score.now Lane.Hits result }
    {
        let f = self.form;
        self.run_in(Lane::Hits, plays_drums(f, bar), f.loop_bar(bar))
    }

    // The hits of song bar `bar`'s page. The next bar is looked at too, so its number has to fit.
    #[tactic(auto, using(crate::proofs::HitsLaws::runs_count))]
    pub(crate) fn heard_runs(&self, bar: u64) -> HeardRuns
        requires { bar < 256 }
        ensures value { result ≡ heard_runs_of self.now.score.now self.now.form.now bar }
        ensures within { HitsWithin self.now.score.now result }
        ensures count_bound { result.count ≤ 196 }
    {
        let own = self.drum_run(bar);
        let part = own_part(bar);
        let next = self.drum_run(bar + 1);
        let count = self.part_count(own, part) + self.part_count(next, Part::Early);
        HeardRuns {
            own,
            part,
            next,
            count,
        }
    }
}
