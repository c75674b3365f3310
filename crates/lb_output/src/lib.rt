//! Reports: their text and their status, and how a text goes out to a sink, whole or line by line.
#![tactic(auto)]

mod follow_error;
mod outgoing;
mod sink;
mod text;

pub use follow_error::FollowError;
pub use outgoing::{Outgoing, send_all, send_chunk};
pub use sink::{Sent, Sink, SinkFailed, Writer, send};
pub use text::{
    Report, WORDS, place_of, push_line, push_number, push_said, push_verdict, push_word,
    report_text, status, word_of,
};
