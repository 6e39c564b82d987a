use retry_core::Bound;
use side_base::Text;

/// A binding that ticks: its name, and what is bound to what comes from it.
#[derive(Debug, Drop)]
pub(crate) struct Cron {
    pub(crate) name: Text,
    pub(crate) bound: Bound,
}
