// Names of definitions, fields and symbols, as bytes: what a name is, its full name in a namespace, the two halves of a
// full name, and the reserved last parts. Every public function is total: any bytes may be handed in.
#![tactic(auto)]

mod halves;
mod qualify;
mod reserved;
mod rule;

pub use halves::{has_dot, last_part, namespace_part};
pub use qualify::{Full, full_name};
pub use reserved::is_reserved;
pub use rule::{is_dotted, is_name, is_namespace, is_simple, may_stand};
