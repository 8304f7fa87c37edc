//! The outs, which stand after all other nodes.

/// An out: the node that it gives, and the range of its values.
#[derive(Clone, Copy, Debug, PartialEq, Eq)]
pub(crate) struct Outlet {
    pub(crate) source: u32,
    pub(crate) lo: i64,
    pub(crate) hi: i64,
}
