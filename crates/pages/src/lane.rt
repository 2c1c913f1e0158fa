// A score's lanes in bytes, and where the events of one bar stand in them.
ghost use Rattle.std.specs.Prelude.{map, ◌≡◌, ◌+◌, ◌-◌, ◌*◌, ◌≤◌, length};
ghost use Rattle.std.specs.List.{All};
ghost use Rattle.std.specs.List.Sorted.{IsNonDecreasingBy};
ghost use Rattle.laws.specs.Lists.{joined};
ghost use Rattle.laws.specs.Writes.{Wrote};
ghost use Rattle.pages.specs.Bytes.{field};
ghost use Rattle.pages.specs.Lane.{tag_of, width_of, count_in, events_of, run_of, InLane, bars_of, bar_run, run_in};
ghost use Rattle.pages.specs.Writable.{Writable};
ghost use Rattle.pages.specs.declared.lane.Lane.{Lane};

use crate::edition::Edition;
use crate::event::Event;
use crate::paged::PagedSong;
use crate::put::put_head;
use composer::score::Score;

#[derive(Clone, Copy, Debug, PartialEq, Eq)]
pub enum Lane {
    Lead = 5,
    Keys = 6,
    Hits = 7,
    Bass = 8,
}

// The events of a lane from `from` on, before `to`. A `Range` can't be copied.
#[derive(Clone, Copy, Debug, PartialEq, Eq)]
pub struct Run {
    pub from: usize,
    pub to: usize,
}

impl Lane {
    // The tag of its field.
    pub fn tag(self) -> u8
        ensures { result ≡ tag_of self }
    {
        self as u8
    }

    // The bytes of one event in an edition.
    pub fn width(self, edition: Edition) -> usize
        ensures { result ≡ width_of edition self }
    {
        let note = edition.note_width();
        match self {
            Lane::Lead => note,
            Lane::Keys => note,
            Lane::Hits => 10,
            Lane::Bass => note,
        }
    }

    // How many events it has.
    pub fn count(self, s: &Score) -> usize
        ensures { result ≡ count_in s.now self }
    {
        match self {
            Lane::Lead => s.lead.n,
            Lane::Keys => s.keys.n,
            Lane::Hits => s.hits.n,
            Lane::Bass => s.bass.n,
        }
    }
}

// A run of events, one after another.
fn put_each<E: Event>(buf: &mut [u8], at: usize, edition: Edition, events: &[E], run: Run) -> usize
    requires finite { All E.Finite events.now }
    requires within { (run.from ≤ run.to) × (run.to ≤ length events.now) }
    requires room { at + E.width edition * (run.to - run.from) ≤ length buf.old }
    ensures { Wrote buf.old buf.new at result (E.width edition * (run.to - run.from)) (joined (run_of run (map (E.bytes edition) events.now))) }
{
    let mut o = at;
    for e in &events[run.from..run.to] {
        o = e.put(buf, o, edition);
    }
    o
}

// A run of a lane's events.
fn put_events(buf: &mut [u8], at: usize, edition: Edition, s: &Score, lane: Lane, run: Run) -> usize
    requires writable { Writable s.now }
    requires in_lane { InLane s.now lane run }
    requires room { at + width_of edition lane * (run.to - run.from) ≤ length buf.old }
    ensures { Wrote buf.old buf.new at result (width_of edition lane * (run.to - run.from)) (joined (run_of run (events_of edition s.now lane))) }
{
    match lane {
        Lane::Lead => put_each(buf, at, edition, s.lead.used(), run),
        Lane::Keys => put_each(buf, at, edition, s.keys.used(), run),
        Lane::Hits => put_each(buf, at, edition, s.hits.used(), run),
        Lane::Bass => put_each(buf, at, edition, s.bass.used(), run),
    }
}

// A run of a lane's events as the lane's field. A struct of score, lane and run would be made at four places for two
// methods.
pub(crate) fn put_run(
    buf: &mut [u8],
    at: usize,
    edition: Edition,
    s: &Score,
    lane: Lane,
    run: Run,
) -> usize
    requires writable { Writable s.now }
    requires in_lane { InLane s.now lane run }
    requires room { at + (3 + width_of edition lane * (run.to - run.from)) ≤ length buf.old }
    ensures { Wrote buf.old buf.new at result (3 + width_of edition lane * (run.to - run.from)) (field (tag_of lane) (joined (run_of run (events_of edition s.now lane)))) }
{
    let size = lane.width(edition) * (run.to - run.from);
    let a = put_head(buf, at, lane.tag(), size);
    put_events(buf, a, edition, s, lane, run)
}

// Where the events drawn for a loop bar stand: bars never fall along a lane, so they begin after those of earlier
// bars and end before the first one of a later bar.
fn run_of_bar<E: Event>(events: &[E], bar: u8) -> Run
    requires { IsNonDecreasingBy E.bar_of events.now }
    ensures { result ≡ bar_run bar (map E.bar_of events.now) }
{
    Run {
        from: events.partition_point(|e| e.bar() < bar),
        to: events.partition_point(|e| e.bar() <= bar),
    }
}

impl<'a> PagedSong<'a> {
    fn bar_run(&self, lane: Lane, bar: u8) -> Run
        ensures { result ≡ bar_run bar (bars_of self.now.score.now lane) }
    {
        let s = self.score;
        match lane {
            Lane::Lead => run_of_bar(s.lead.used(), bar),
            Lane::Keys => run_of_bar(s.keys.used(), bar),
            Lane::Hits => run_of_bar(s.hits.used(), bar),
            Lane::Bass => run_of_bar(s.bass.used(), bar),
        }
    }

    // The run of the events that a bar shows; a silent layer's is empty.
    #[tactic(auto, unfolding(crate::specs::Lane::run_in))]
    pub(crate) fn run_in(&self, lane: Lane, on: bool, bar: u8) -> Run
        ensures value { result ≡ run_in self.now.score.now lane on bar }
        ensures in_lane { InLane self.now.score.now lane result }
    {
        if on {
            self.bar_run(lane, bar)
        } else {
            Run { from: 0, to: 0 }
        }
    }
}
