//! Shortest paths of residual edges, by reduced costs: what may be walked at what cost (`specs/Ways.antt`), walks and
//! paths (`specs/Walk.antt`), and what a search finds (`specs/Found.antt`). The search goes from its root against the
//! edges, by the method of E. W. Dijkstra, A note on two problems in connexion with graphs (1959), up to a cap and no
//! further than it has to. It works at the nodes and edges that it reaches alone.
#![tactic(auto)]

mod following;
mod found;
mod front;
mod label;
mod labelling;
mod lifting;
mod measuring;
mod quest;
mod relaxing;
mod scratch;
mod searching;
mod spreading;
mod taking;
mod task;
mod tracing;
mod ways;

pub use found::{Found, Path, Reach};
pub use label::{Label, Step};
pub use lifting::lift;
pub use measuring::shortest;
pub use scratch::PathScratch;
pub use searching::search;
pub use task::{NO_CAP, Task};
pub use ways::{Arc, MOST_COST, MOST_POTENTIAL, Ways};
