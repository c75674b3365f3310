//! The options of a run.

ghost use Rattle.std.specs.Prelude.{◌≡◌, ◌≤◌, string_bytes};
ghost use Rattle.std.specs.Option.{option_map};

/// The options of a run. Only the node under test and the observer change what the report says: the
/// rest sets how the work is spread.
pub struct Options {
    /// The node under test.
    pub node: String,
    /// The node that judges it. Without one the node under test judges itself.
    pub observer: Option<String>,
    /// How many workers run traces, 0 to 64. With 0 there are as many as processors.
    pub workers: u32,
    /// How many traces are in a batch at most, 1 to 64.
    pub batch: u32,
    /// Whether traces of like length share a batch of a live report. Where the traces are judged
    /// while they are read, they always do.
    pub by_length: bool,
    pub ghost few_workers: { workers ≤ 64 },
    pub ghost some_lanes: { 1 ≤ batch },
    pub ghost few_lanes: { batch ≤ 64 },
}

// Not derived, so that a caller drops it in one step.
impl Drop for Options {
    fn drop(self) {
        let Options {
            node: _,
            observer: _,
            workers: _,
            batch: _,
            by_length: _,
        } = self;
    }
}

impl Options {
    /// Options with these parts.
    pub fn new(
        node: String,
        observer: Option<String>,
        workers: u32,
        batch: u32,
        by_length: bool,
    ) -> Options
        requires workers { workers ≤ 64 }
        requires some_lanes { 1 ≤ batch }
        requires few_lanes { batch ≤ 64 }
        ensures node { result.node ≡ node }
        ensures observer { result.observer ≡ observer }
        ensures workers { result.workers ≡ workers }
        ensures batch { result.batch ≡ batch }
        ensures by_length { result.by_length ≡ by_length }
    {
        Options {
            node,
            observer,
            workers,
            batch,
            by_length,
        }
    }

    /// The name of the observer, if there is one.
    pub fn observer_name(&self) -> Option<&str>
        ensures { option_map (λ o. o.now) result ≡ option_map string_bytes self.now.observer }
    {
        match &self.observer {
            Some(name) => Some(name.as_str()),
            None => None,
        }
    }
}
