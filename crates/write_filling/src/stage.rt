// How far the filling of a cluster is.
use cluster_filling::Filling;

/// What is done with the next of the part's clusters.
#[derive(Clone, Copy, Debug)]
pub(crate) enum Stage {
    /// Nothing yet.
    Next,
    /// It is written whole.
    Fills(Filling),
}
