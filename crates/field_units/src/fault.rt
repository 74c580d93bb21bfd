use thiserror::Error;

/// Why there is no such field.
#[derive(Clone, Copy, Debug, PartialEq, Eq, Error)]
pub enum FieldFault {
    /// The field would have no bit, or more than 64.
    #[error("BadWidth")]
    BadWidth,
    /// The field would go past the end of its region.
    #[error("OutsideRegion")]
    OutsideRegion,
}
