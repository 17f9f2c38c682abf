//! Who is told how far a search has come.

/// What is told how far a search has come. It changes nothing of the search.
pub trait Watch {
    /// This many walks are done, and the goal held in none.
    fn walked(&self, walks: u32);
}
