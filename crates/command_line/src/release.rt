//! Which release of the program this is.

/// What the program reports of itself.
#[derive(Clone, Copy, Debug)]
pub struct Release<'a> {
    /// The number of the version.
    pub version: &'a str,
    /// The digest of the sources that it is made of.
    pub sources: &'a str,
    /// The kit that it is proved and made with.
    pub kit: &'a str,
}
