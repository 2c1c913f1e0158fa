// The composer: what the draws make of a song.
#![tactic(auto)]

pub mod band;
pub mod bass;
pub mod chord;
pub mod compose;
pub mod drums;
pub mod few;
pub mod form;
pub mod harmony;
pub mod keys;
pub mod kicks;
pub mod lead;
pub mod note;
pub mod refusal;
pub mod score;
pub mod sort;
pub mod spread;
pub mod style;
pub mod tempo;
pub mod timing;
pub mod traits;
pub mod voice;
