//! What chosen edges allow.
use uhura_net::Place;

/// Times that keep the edges, one for each node, or the places of a closed walk, in order, whose bounds sum below 0.
#[derive(Clone, Copy, Debug)]
pub enum Verdict<'a> {
    Potentials(&'a [i64]),
    Negative(&'a [Place]),
}
