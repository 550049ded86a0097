//! The top call: `panc` on the words of its command line, over any files and any sink of text.
#![tactic(auto)]

mod bounding;
mod checking;
mod command;
mod compiling;
mod laws;
mod lines;
mod listing;
mod loading;
mod meaning;
mod playing;
mod running;
mod showing;
mod status;

pub use command::panc;
pub use laws::refuses_a_wrong_image;
