//! What is answered.

/// Of each static object, in order of declaration, whether it is kept.
#[derive(Drop)]
pub struct Kept {
    pub objects: Vec<bool>,
}
