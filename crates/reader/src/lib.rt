// The reader: a sheet's bytes back into the song that they name, and the canonical writer of such songs.
#![tactic(auto)]

pub mod cleared;
pub mod codes;
pub mod event;
pub mod layout;
pub mod passes;
pub mod read;
pub mod song;
pub mod within;
pub mod write;
