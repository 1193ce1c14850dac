//! The words of the command `linetab`, and the request that they make.
//!
//! [`request_of`] reads the words, and returns what they ask for, a [`Request`], or why there is none. It opens and prints
//! nothing.
#![tactic(auto)]

mod command;
mod description;
mod request;
mod stop;
mod words;

pub use request::{
    AddressSize, Asked, FileQuestion, Judging, Question, Reading, Request, Upgrading,
};
pub use stop::WordsStop;
pub use words::request_of;
