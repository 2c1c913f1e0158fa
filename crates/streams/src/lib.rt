// The draws: SplitMix64 streams, one for each stage of a song, what is drawn from them, and the way back.
#![tactic(auto)]

pub mod draw;
pub mod float;
pub mod mix;
pub mod stage;
pub mod stream;
pub mod unmix;
