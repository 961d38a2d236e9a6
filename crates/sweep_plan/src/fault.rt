//! Why words give no plan of a sweep: they don't ask for one, or memory was refused.
use thiserror::Error;

/// Why there is no plan.
#[derive(Clone, Copy, Debug, PartialEq, Eq, Error)]
pub enum PlanFault {
    /// The words ask for none.
    #[error("usage")]
    Words,
    /// Memory was refused.
    #[error("memory")]
    Memory,
}
