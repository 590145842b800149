// The monitor: launch, store and mark. These are public: none has a `requires`, and each promise is one equation with the definition on flat
// bytes, over all buffers lent. Nothing is assumed.
#![tactic(auto)]

pub mod launch;
pub mod steps;
