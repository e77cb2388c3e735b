// The events of a step: the halves of their tree by RFC 6962, and the sides of its paths; tw_events computes roots and paths.

pub(crate) mod event_part;
pub(crate) mod event_tree;
pub(crate) mod halves;
pub(crate) mod path_sides;
pub(crate) mod side;
