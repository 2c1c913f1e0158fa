// A song's score: tempo, chords, the four lanes and the lead's voice.
use crate::chord::Chord;
use crate::few::Few;
use crate::note::{Hit, Note};
use crate::style::Style;
use crate::voice::LeadVoice;

// The entries of a lane in use are its events, in the order drawn; the others are zero.
#[derive(Clone, Copy)]
pub struct Score {
    pub style: Style,
    pub bpm: f32,
    pub bar_chords: [Chord; 8],
    pub lead: Few<Note, 56>,
    pub keys: Few<Note, 128>,
    pub hits: Few<Hit, 98>,
    pub bass: Few<Note, 104>,
    pub lead_voice: LeadVoice,
}

// How many draws each stage's stream has made.
#[derive(Clone, Copy, Debug, PartialEq, Eq)]
pub struct Counters {
    pub harmony: u64,
    pub tempo: u64,
    pub lead: u64,
    pub keys: u64,
    pub drums: u64,
    pub bass: u64,
    pub voice: u64,
}
