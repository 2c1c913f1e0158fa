// The sheet and the bar page: a song and its form in bytes. Numbers in bytes, and what a program replies.
#![tactic(auto)]

pub mod answer;
pub mod bar;
pub mod contents;
pub mod edition;
pub mod event;
pub mod get;
pub mod hits;
pub mod lane;
pub mod page;
pub mod paged;
pub mod put;
pub mod reply;
pub mod sheet;
