// The bar page: what one bar of the song shows, in edition 2.
ghost use Rattle.std.specs.Prelude.{◌≡◌, ◌+◌, ◌*◌, ◌<◌, ◌≤◌, length};
ghost use Rattle.laws.specs.Writes.{Wrote};
ghost use Rattle.composer.specs.Form.{loop_bar_of};
ghost use Rattle.pages.specs.Answer.{Writes, written_of, buffer_of};
ghost use Rattle.pages.specs.Hits.{page_hits, hits_field};
ghost use Rattle.pages.specs.Inner.Hits.{run_hits, HitsWithin};
ghost use Rattle.pages.specs.Lane.{run_size, Held};
ghost use Rattle.pages.specs.Page.{Chorded, chord_size, chord_field, page_size, runs_in, RunsWithin, runs_size, page_bytes, page_of, page_asked};
ghost use Rattle.pages.specs.Writable.{Paged};

use crate::edition::{Edition, put_edition};
use crate::hits::{HeardRuns, Part, put_part};
use crate::lane::{Lane, Run, put_run};
use crate::paged::PagedSong;
use crate::put::{put_bytes, put_head};
use composer::compose::compose;
use composer::form::Form;
use composer::form::ask::plays;
use composer::form::plays::Plays;
use composer::form::song::arrange;
use composer::harmony::bar_chords;
use composer::refusal::Refusal;
use composer::score::Score;

fn chord_size(on: bool) -> usize
    ensures value { result ≡ chord_size on }
    ensures upper_bound { result ≤ 4 }
{
    if on { 4 } else { 0 }
}

// Where the notes of one loop bar stand in each lane.
#[derive(Clone, Copy, Debug, PartialEq, Eq)]
pub struct Runs {
    pub lead: Run,
    pub keys: Run,
    pub bass: Run,
}

// The bytes of a run of a lane's events.
fn run_size(lane: Lane, run: Run) -> usize
    requires { Held run }
    ensures value { result ≡ run_size lane run }
    ensures upper_bound { result < 65536 }
{
    lane.width(Edition::Two) * (run.to - run.from)
}

// What the page of one bar shows: the layers that play in it, the loop bar that it is, and where its events stand.
#[derive(Clone, Copy)]
struct Page<'a> {
    score: &'a Score,
    plays: Plays,
    bar: u8,
    runs: Runs,
    hits: HeardRuns,
    ghost paged: { Paged score.now },
    ghost chorded: { Chorded score.now },
    ghost bar_bound: { bar < 8 },
    ghost runs_within: { RunsWithin score.now runs },
    ghost runs_drawn: { runs ≡ runs_in score.now plays bar },
    ghost hits_within: { HitsWithin score.now hits },
    ghost count_bound: { hits.count ≤ 196 },
}

impl<'a> Page<'a> {
    // Its length.
    fn size(&self) -> usize
        ensures { result ≡ runs_size self.now.plays.pad self.now.runs self.now.hits.count }
    {
        let lead = run_size(Lane::Lead, self.runs.lead);
        let keys = run_size(Lane::Keys, self.runs.keys);
        let bass = run_size(Lane::Bass, self.runs.bass);
        let chord = chord_size(self.plays.pad);
        Edition::Two.field_size() + 15 + chord + lead + keys + 10 * self.hits.count + bass
    }

    // 0x03: the bar's chord, or nothing where the pad is silent.
    fn put_chord(&self, buf: &mut [u8], at: usize) -> usize
        requires { at + (3 + chord_size self.now.plays.pad) ≤ length buf.old }
        ensures { Wrote buf.old buf.new at result (3 + chord_size self.now.plays.pad) (chord_field self.now.score.now self.now.plays.pad self.now.bar) }
    {
        if !self.plays.pad {
            return put_head(buf, at, 0x03, 0);
        }
        let chords = bar_chords(self.score.bar_chords);
        let a = put_head(buf, at, 0x03, 4);
        put_bytes(buf, a, &chords[self.bar as usize])
    }

    // 0x07: the hits that are heard in it.
    fn put_hits(&self, buf: &mut [u8], at: usize) -> usize
        requires { at + (3 + 10 * self.now.hits.count) ≤ length buf.old }
        ensures { Wrote buf.old buf.new at result (3 + 10 * self.now.hits.count) (hits_field (run_hits self.now.score.now self.now.hits)) }
    {
        let h = self.hits;
        let a = put_head(buf, at, 0x07, 10 * h.count);
        let b = put_part(buf, a, self.score, h.own, h.part);
        put_part(buf, b, self.score, h.next, Part::Early)
    }

    // The whole, from the start of a buffer that is long enough.
    fn put(&self, buf: &mut [u8]) -> usize
        requires { runs_size self.now.plays.pad self.now.runs self.now.hits.count ≤ length buf.old }
        ensures { Wrote buf.old buf.new 0 result (page_size self.now.score.now self.now.plays self.now.bar self.now.hits.count) (page_bytes self.now.score.now self.now.plays self.now.bar (run_hits self.now.score.now self.now.hits)) }
    {
        let s = self.score;
        let z = put_edition(buf, 0, Edition::Two);
        let a = self.put_chord(buf, z);
        let b = put_run(buf, a, Edition::Two, s, Lane::Lead, self.runs.lead);
        let c = put_run(buf, b, Edition::Two, s, Lane::Keys, self.runs.keys);
        let d = self.put_hits(buf, c);
        put_run(buf, d, Edition::Two, s, Lane::Bass, self.runs.bass)
    }
}

impl<'a> PagedSong<'a> {
    // Lead and keys both follow the keys' layer.
    fn runs_in(&self, p: Plays, bar: u8) -> Runs
        ensures value { result ≡ runs_in self.now.score.now p bar }
        ensures within { RunsWithin self.now.score.now result }
    {
        Runs {
            lead: self.run_in(Lane::Lead, p.keys, bar),
            keys: self.run_in(Lane::Keys, p.keys, bar),
            bass: self.run_in(Lane::Bass, p.bass, bar),
        }
    }

    // The page of a song bar, if the buffer is as long as this very page. The layers that play are known, but for the
    // hits: they are of two bars, and are looked up.
    fn page_into(&self, p: Plays, bar: u64, buf: &mut [u8]) -> Result<usize, Refusal>
        requires { bar < 256 }
        ensures value { result ≡ written_of (length buf.old) (Writes (page_bytes self.now.score.now p (loop_bar_of self.now.form.now bar) (page_hits self.now.score.now self.now.form.now bar))) }
        ensures buf_after { buf.new ≡ buffer_of buf.old (Writes (page_bytes self.now.score.now p (loop_bar_of self.now.form.now bar) (page_hits self.now.score.now self.now.form.now bar))) }
    {
        let looped = self.form.loop_bar(bar);
        let hits = self.heard_runs(bar);
        let runs = self.runs_in(p, looped);
        let page = Page {
            score: self.score,
            plays: p,
            bar: looped,
            runs,
            hits,
        };
        if buf.len() < page.size() {
            return Err(Refusal::ShortBuffer);
        }
        Ok(page.put(buf))
    }
}

// The page of a song bar; a look-up of its plays that is refused is passed on.
fn page_of(s: Score, f: Form, bar: u64, buf: &mut [u8]) -> Result<usize, Refusal>
    requires paged { Paged s }
    requires chorded { Chorded s }
    ensures value { result ≡ written_of (length buf.old) (page_of s f bar) }
    ensures buf_after { buf.new ≡ buffer_of buf.old (page_of s f bar) }
{
    // document 01 asks for the answer to be taken apart so, where a `?` would do the same
    let a = plays(&f, bar as usize);
    let Ok(p) = a else {
        return a.and(Ok(0));
    };
    let song = PagedSong {
        score: &s,
        form: &f,
    };
    song.page_into(p, bar, buf)
}

// The page of song bar `bar` of a seed's song in style 0 or 1, from the buffer's first byte on, and its
// length; what lies beyond stays. A hit before its bar line stands on the page of the bar before. Any other
// style is refused with 1, then a bar that the song does not have with 3, then a buffer that is shorter than
// this page with 2; a refusal writes nothing.
pub fn bar_page(style: u8, seed: u64, bar: u64, buf: &mut [u8]) -> Result<usize, Refusal>
    ensures value { result ≡ written_of (length buf.old) (page_asked style seed bar) }
    ensures buf_after { buf.new ≡ buffer_of buf.old (page_asked style seed bar) }
{
    let song = compose(style, seed)?;
    page_of(song.score, arrange(seed), bar, buf)
}
