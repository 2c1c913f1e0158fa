// What a sheet tells, and its parts in bytes.
ghost use Rattle.std.specs.Prelude.{◌+◌, ◌<◌, ◌≤◌, length};
ghost use Rattle.laws.specs.Lists.{joined};
ghost use Rattle.laws.specs.Writes.{Wrote};
ghost use Rattle.pages.specs.Lane.{lane_size};
ghost use Rattle.pages.specs.Sheet.{name_field, tempo_field, chords_field, scale_field, song_bytes, lane_field, lanes_size, lanes_bytes, ends_field, plays_bytes, plays_field, form_bytes, sheet_size, sheet_bytes};
ghost use Rattle.pages.specs.Writable.{Writable};

use crate::edition::{Edition, put_edition};
use crate::lane::{Lane, Run, put_run};
use crate::put::{put_bytes, put_f32, put_head, put_u8, put_u64};
use composer::form::Form;
use composer::harmony::{Scale, bar_chords};
use composer::score::Score;

// A song and its form that a sheet can be written of, and the edition that is wanted. Each method that puts writes a
// part, from `at` on, and answers the place after it.
#[derive(Clone, Copy)]
pub(crate) struct Contents<'a> {
    pub edition: Edition,
    pub seed: u64,
    pub score: &'a Score,
    pub scale: Scale,
    pub form: &'a Form,
    ghost writable: { Writable score.now },
    ghost scale_bound: { scale.n ≤ 6 },
    ghost bars_bound: { form.now.bars ≤ 64 },
}

// Eight chords of four notes.
fn put_eight(buf: &mut [u8], at: usize, chords: &[[u8; 4]; 8]) -> usize
    requires { at + 32 ≤ length buf.old }
    ensures { Wrote buf.old buf.new at result 32 (joined chords.now) }
{
    let mut o = at;
    for notes in chords {
        o = put_bytes(buf, o, notes);
    }
    o
}

// 0x04: melody scale. As a method its proof didn't close: the array's length isn't found behind the struct.
fn put_scale(buf: &mut [u8], at: usize, scale: Scale) -> usize
    requires n_bound { scale.n ≤ 6 }
    requires room { at + (3 + scale.n) ≤ length buf.old }
    ensures { Wrote buf.old buf.new at result (3 + scale.n) (scale_field scale) }
{
    let a = put_head(buf, at, 0x04, scale.n);
    put_bytes(buf, a, &scale.pcs[..scale.n])
}

impl<'a> Contents<'a> {
    // 0x01: style, seed, lead voice.
    fn put_name(&self, buf: &mut [u8], at: usize) -> usize
        requires { at + 13 ≤ length buf.old }
        ensures { Wrote buf.old buf.new at result 13 (name_field self.now.seed self.now.score.now) }
    {
        let a = put_head(buf, at, 0x01, 10);
        let b = put_u8(buf, a, self.score.style.number());
        let c = put_u64(buf, b, self.seed);
        put_u8(buf, c, self.score.lead_voice.number())
    }

    // 0x02: tempo.
    fn put_tempo(&self, buf: &mut [u8], at: usize) -> usize
        requires { at + 7 ≤ length buf.old }
        ensures { Wrote buf.old buf.new at result 7 (tempo_field self.now.score.now) }
    {
        let a = put_head(buf, at, 0x02, 4);
        put_f32(buf, a, self.score.bpm)
    }

    // 0x03: eight chords.
    fn put_chords(&self, buf: &mut [u8], at: usize) -> usize
        requires { at + 35 ≤ length buf.old }
        ensures { Wrote buf.old buf.new at result 35 (chords_field self.now.score.now) }
    {
        let a = put_head(buf, at, 0x03, 32);
        put_eight(buf, a, &bar_chords(self.score.bar_chords))
    }

    // What a song is before its events.
    fn put_song(&self, buf: &mut [u8], at: usize) -> usize
        requires { at + (58 + self.now.scale.n) ≤ length buf.old }
        ensures { Wrote buf.old buf.new at result (58 + self.now.scale.n) (song_bytes self.now.seed self.now.score.now self.now.scale) }
    {
        let a = self.put_name(buf, at);
        let b = self.put_tempo(buf, a);
        let c = self.put_chords(buf, b);
        put_scale(buf, c, self.scale)
    }

    // A whole lane: a run of all its events.
    fn put_lane(&self, buf: &mut [u8], at: usize, lane: Lane) -> usize
        requires { at + (3 + lane_size self.now.edition self.now.score.now lane) ≤ length buf.old }
        ensures { Wrote buf.old buf.new at result (3 + lane_size self.now.edition self.now.score.now lane) (lane_field self.now.edition self.now.score.now lane) }
    {
        let all = Run {
            from: 0,
            to: lane.count(self.score),
        };
        put_run(buf, at, self.edition, self.score, lane, all)
    }

    // 0x05 to 0x08: the lanes.
    fn put_lanes(&self, buf: &mut [u8], at: usize) -> usize
        requires { at + lanes_size self.now.edition self.now.score.now ≤ length buf.old }
        ensures { Wrote buf.old buf.new at result (lanes_size self.now.edition self.now.score.now) (lanes_bytes self.now.edition self.now.score.now) }
    {
        let a = self.put_lane(buf, at, Lane::Lead);
        let b = self.put_lane(buf, a, Lane::Keys);
        let c = self.put_lane(buf, b, Lane::Hits);
        self.put_lane(buf, c, Lane::Bass)
    }

    // 0x09: how the song begins and ends.
    fn put_ends(&self, buf: &mut [u8], at: usize) -> usize
        requires { at + 9 ≤ length buf.old }
        ensures { Wrote buf.old buf.new at result 9 (ends_field self.now.form.now) }
    {
        let f = self.form;
        let body = [
            f.intro.code(),
            f.intro.bars(),
            f.phrases,
            f.outro.code(),
            f.outro.bars(),
            u8::from(f.dip),
        ];
        let a = put_head(buf, at, 0x09, 6);
        put_bytes(buf, a, &body)
    }

    // A byte for each bar of the song.
    fn put_bars(&self, buf: &mut [u8], at: usize) -> usize
        requires { at + self.now.form.now.bars ≤ length buf.old }
        ensures { Wrote buf.old buf.new at result self.now.form.now.bars (plays_bytes self.now.form.now) }
    {
        let f = self.form;
        let mut o = at;
        for p in &f.plays[..f.bars as usize] {
            o = put_u8(buf, o, p.bits());
        }
        o
    }

    // 0x0A: the layers of each bar.
    fn put_plays(&self, buf: &mut [u8], at: usize) -> usize
        requires { at + (3 + self.now.form.now.bars) ≤ length buf.old }
        ensures { Wrote buf.old buf.new at result (3 + self.now.form.now.bars) (plays_field self.now.form.now) }
    {
        let a = put_head(buf, at, 0x0a, self.form.bars as usize);
        self.put_bars(buf, a)
    }

    // The form.
    fn put_form(&self, buf: &mut [u8], at: usize) -> usize
        requires { at + (12 + self.now.form.now.bars) ≤ length buf.old }
        ensures { Wrote buf.old buf.new at result (12 + self.now.form.now.bars) (form_bytes self.now.form.now) }
    {
        let a = self.put_ends(buf, at);
        self.put_plays(buf, a)
    }

    // The whole, from the start of a buffer that is long enough.
    pub(crate) fn put(&self, buf: &mut [u8]) -> usize
        requires { sheet_size self.now.edition self.now.score.now self.now.scale self.now.form.now ≤ length buf.old }
        ensures { Wrote buf.old buf.new 0 result (sheet_size self.now.edition self.now.score.now self.now.scale self.now.form.now) (sheet_bytes self.now.edition self.now.seed self.now.score.now self.now.scale self.now.form.now) }
    {
        let z = put_edition(buf, 0, self.edition);
        let a = self.put_song(buf, z);
        let b = self.put_lanes(buf, a);
        self.put_form(buf, b)
    }
}
