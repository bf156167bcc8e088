use crate::name::Name;

/// A name as it is written: its bytes, and the place of its first byte in the text.
#[derive(Debug, Drop)]
pub struct Ident {
    pub text: Name,
    pub place: u32,
}
