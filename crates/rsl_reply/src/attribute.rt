use crate::target::Target;
use rsl_wire::Octets;

/// An attribute that a text writes.
#[derive(Drop)]
pub struct ReplyAttribute {
    /// Which it is.
    pub target: Target,
    /// Whether it stands beside those of the same name that a profile has, and does not replace them.
    pub adds: bool,
    /// Its octets: the Type, the length and the value.
    pub octets: Octets,
}
