//! Whom an entry is about.
use base::MemberId;

/// Whom an entry is about: these members, in this order; or so many of them, chosen by chance.
#[derive(Debug, Drop)]
pub struct Who {
    pub members: Vec<MemberId>,
    pub count: Option<u64>,
}
