// Why a call is refused.
use thiserror::Error;

/// Why a page is not mapped, or a table not installed.
#[derive(Clone, Copy, Debug, PartialEq, Eq, Error)]
pub enum MapRefusal {
    /// The address is not where a page, or a table's region, begins.
    #[error("the address is not aligned")]
    BadAddress,
    /// Something is mapped there already.
    #[error("the address is mapped already")]
    Mapped,
    /// No table is installed for the address.
    #[error("no table is installed for the address")]
    NoTable,
}
