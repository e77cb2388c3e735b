// On which side of its event node a label of an audit path stands.

/// On which side of its event node a label of an audit path stands (RFC 6962, section 2.1.1).
#[derive(Clone, Copy, Default, PartialEq, Eq, Debug, Drop)]
pub enum Side {
    #[default]
    Left,
    Right,
}
