//! Parts of a text, by their numbers.

ghost use Rattle.std.specs.Prelude.{◌≡◌, ◌<◌, ◌≤◌, ◌==◌, ℕ, IfNone, IfSome, slice_index};
ghost use Rattle.lb_part.specs.Counts.{IsCount, reach};

/// Part `number` of `count` parts of a text: 1 of 1 is the whole text.
#[derive(Clone, Copy)]
pub struct Part {
    pub number: u32,
    pub count: u32,
    pub ghost some: { 0 < number },
    pub ghost within: { number ≤ count },
    pub ghost few: { count ≤ 65536 },
}

/// The most parts that a text has.
const MOST: u32 = 65536;

/// The most bytes of a text that has parts.
pub(crate) const MOST_BYTES: u64 = 1 << 46;

/// Whether a text has a plus in front.
fn has_plus(text: &str) -> bool
    ensures { result ≡ (slice_index text.now 0 == 43) }
{
    match text.as_bytes() {
        [first, ..] => *first == b'+',
        [] => false,
    }
}

/// The number that ASCII digits spell, if it is from 1 to the most parts.
fn number_of(digits: &str) -> Option<u32>
    ensures some { IfSome result (IsCount digits.now) }
    ensures none { IfNone result ((n : ℕ) → IsCount digits.now n → ⊥) }
{
    if has_plus(digits) {
        return None;
    }
    match digits.parse::<u32>() {
        Ok(n) if 0 < n && n <= MOST => Some(n),
        _ => None,
    }
}

impl Part {
    ghost use Rattle.std.specs.Prelude.{IfNone, IfSome, ◌-◌};
    ghost use Rattle.lb_part.specs.Parts.{Names};
    ghost use Rattle.lb_part.specs.declared.part.Part.{Part as Named};

    /// The part that a text such as `3/16` names.
    pub fn named(text: &str) -> Option<Part>
        ensures some { IfSome result (Names text.now) }
        ensures none { IfNone result ((part : Named) → Names text.now part → ⊥) }
    {
        let (first, second) = text.split_once('/')?;
        let number = number_of(first)?;
        let count = number_of(second)?;
        if number > count {
            return None;
        }
        Some(Part { number, count })
    }

    /// The end of the first `parts` parts of a text of `bytes` bytes.
    fn reach(self, parts: u32, bytes: u64) -> u64
        requires parts { parts ≤ self.count }
        requires bytes { bytes ≤ MOST_BYTES }
        ensures value { result ≡ reach parts self.count bytes }
        ensures within { result ≤ bytes }
    {
        bytes * u64::from(parts) / u64::from(self.count)
    }

    /// The place where the part begins in a text of `bytes` bytes.
    pub(crate) fn begin(self, bytes: u64) -> u64
        requires { bytes ≤ MOST_BYTES }
        ensures value { result ≡ reach (self.number - 1) self.count bytes }
        ensures within { result ≤ bytes }
    {
        self.reach(self.number - 1, bytes)
    }

    /// The place where the part ends in a text of `bytes` bytes.
    pub(crate) fn end(self, bytes: u64) -> u64
        requires { bytes ≤ MOST_BYTES }
        ensures value { result ≡ reach self.number self.count bytes }
        ensures within { result ≤ bytes }
    {
        self.reach(self.number, bytes)
    }
}
