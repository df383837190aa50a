//! Difference constraints: times that keep chosen edges, or a closed walk of them whose bounds sum below 0, by the
//! method of Bellman and Ford. All times start at 0; pass after pass follows each edge and lowers the time of its end
//! where the edge wants it lower. Each node keeps the edge that lowered it last. Where these edges lead back from a
//! node to itself they are the closed walk. `specs/Verdict.antt` says what is found, `specs/Descent.antt` and
//! `specs/Trail.antt` why.
#![tactic(auto)]

mod descending;
mod following;
mod gathering;
mod lining;
mod scratch;
mod settling;
mod step;
mod tracing;
mod verdict;

pub use scratch::Scratch;
pub use settling::settle;
pub use verdict::Verdict;
