//! How much of a run is drawn.

/// The most events of which each is drawn without being asked for.
const MOST_EVENTS: u64 = 2_000;
/// How many events of a longer run are drawn at either end.
const AT_EACH_END: u64 = 500;

/// How much of a run is drawn.
#[derive(Clone, Copy, Debug, PartialEq, Eq)]
pub enum Extent {
    /// Of more than 2,000 events the first and the last 500.
    Ends,
    /// Every event.
    All,
    /// The events from `first` to `last`, which are numbered from 1; of a part beyond the run's end, what there is.
    Part { first: u64, last: u64 },
}

/// Events one after another that are not drawn: those from `first` to `last`, none where `last` is less.
#[derive(Clone, Copy, PartialEq, Eq)]
pub(crate) struct Gap {
    pub(crate) first: u64,
    pub(crate) last: u64,
}

/// The events that are not drawn: at most two gaps, one before the other.
#[derive(Clone, Copy, PartialEq, Eq)]
pub(crate) struct Hidden {
    pub(crate) early: Gap,
    pub(crate) late: Gap,
}

/// No event.
const NONE: Gap = Gap { first: 1, last: 0 };

impl Extent {
    /// Which of this many events are not drawn.
    pub(crate) fn hidden(self, events: u64) -> Hidden {
        match self {
            Extent::Ends if events > MOST_EVENTS => Hidden {
                early: Gap {
                    first: AT_EACH_END + 1,
                    last: events - AT_EACH_END,
                },
                late: NONE,
            },
            Extent::Part { first, last } => Hidden {
                early: Gap {
                    first: 1,
                    last: first.saturating_sub(1).min(events),
                },
                late: Gap {
                    first: last.saturating_add(1),
                    last: events,
                },
            },
            _ => Hidden {
                early: NONE,
                late: NONE,
            },
        }
    }
}

impl Gap {
    /// Whether this event is one of them.
    pub(crate) fn has(self, event: u64) -> bool {
        self.first <= event && event <= self.last
    }

    /// Whether there is none.
    pub(crate) fn is_empty(self) -> bool {
        self.last < self.first
    }
}

impl Hidden {
    /// Whether there is an event that is not drawn.
    pub(crate) fn is_some(self) -> bool {
        !self.early.is_empty() || !self.late.is_empty()
    }

    /// Whether this event is not drawn.
    pub(crate) fn has(self, event: u64) -> bool {
        self.early.has(event) || self.late.has(event)
    }
}
