//! The transfer syntaxes in which data sets are spelled (PS3.5, annex A).

/// How the elements of a data set are spelled.
#[derive(Clone, Copy, Debug, PartialEq, Eq)]
pub enum Syntax {
    /// Implicit VR Little Endian, "1.2.840.10008.1.2" (PS3.5, section A.1).
    Implicit,
    /// Explicit VR Little Endian, "1.2.840.10008.1.2.1" (PS3.5, section A.2).
    Explicit,
}
