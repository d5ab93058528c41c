//! Names and other short texts, with their positions.

pub use cal_terms::Text;

/// A name of the program, or a text that it prints, and where that stands.
#[derive(Debug, Drop)]
pub struct Name {
    /// The bytes of the name, or those between the quotes of the text.
    pub text: Text,
    /// The byte, from 0, at which the name begins, or the text's opening quote stands.
    pub at: u32,
}
