//! The errors of a live report.

use thiserror::Error;

/// The reason why a live report did not go out whole. Its first `count` bytes went out.
#[derive(Clone, Copy, Debug, Error)]
pub enum FollowError {
    /// E0: memory was refused.
    #[error("out of memory after {count} bytes")]
    Memory { count: usize },
    /// E19: the sink failed.
    #[error("the output failed after {count} bytes")]
    Write { count: usize },
}
