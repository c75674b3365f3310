//! The bytes of inputs: feeds, files that are read at places, and what of their text is in memory.
//!
//! ```text
//! std's readers, texts, ranges of files -> Feed -> load, Window
//! std's files, texts -> PlacedFile -> RangeFeed, FileChunks
//! ```
//!
//! Nothing here knows what the bytes mean, but for the line that parts a case text.
#![tactic(auto)]

mod case;
mod feed;
mod file_chunks;
mod placed;
mod range_feed;
mod section_ends;
mod text_feed;
mod window;

pub use case::split_case;
pub use feed::{Feed, FeedFailed, LoadError, Reader, load};
pub use file_chunks::FileChunks;
pub use placed::{FilePlaces, PlacedFile, TextPlaces, bytes_from};
pub use range_feed::RangeFeed;
pub use section_ends::start_at;
pub use text_feed::TextFeed;
pub use window::Window;
