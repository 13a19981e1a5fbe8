//! Which steps there are to measure.

/// One step, or two that cancel.
#[derive(Clone, Copy)]
pub enum StepKind {
    /// A load of a word in reach.
    Peek,
    /// A store of an owned word of data.
    Put,
    /// A kind, and the old one again.
    Dress,
    /// A reference, and none.
    Gain,
    /// An entry, and none.
    Entry,
    /// A split of a frame, and a join.
    Cut,
}

impl StepKind {
    /// The kind of this name.
    pub fn named(name: &str) -> Option<StepKind> {
        match name {
            "peek" => Some(StepKind::Peek),
            "put" => Some(StepKind::Put),
            "dress" => Some(StepKind::Dress),
            "gain" => Some(StepKind::Gain),
            "entry" => Some(StepKind::Entry),
            "cut" => Some(StepKind::Cut),
            _ => None,
        }
    }
}
