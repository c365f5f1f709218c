//! What a directive gives.

/// None; or an extension's usage by its index, where that counts; or a repository rule by its
/// index.
#[derive(Clone, Copy)]
pub enum Gift {
    Nothing,
    Proxy(Option<usize>),
    Rule(usize),
}
