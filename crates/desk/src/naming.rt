/// An ordering that stands on no other.
#[derive(Clone, Copy, Debug, PartialEq, Eq)]
pub enum Base {
    Fixed,
    Deadline,
    TwoPhase,
}

/// An ordering that can be asked for by its name: one that stands on no other, alone or below a layer. The layer is made
/// from the same table.
#[derive(Clone, Copy, Debug, PartialEq, Eq)]
pub enum Named {
    Plain(Base),
    /// Below the promotion layer.
    Promotion(Base),
    /// Below the background layer with the table's own background list.
    Background(Base),
}
