use crate::Actor;

/// A point that each actor of a race passes before each of its steps, so that a test can delay it there. Its contract
/// promises nothing.
pub trait Gate: Sync {
    /// Called by the actor's thread before its next step.
    fn pass(&self, actor: Actor);
}

/// The gate that delays no actor.
#[derive(Clone, Copy, Debug)]
pub struct OpenGate;

impl Gate for OpenGate {
    fn pass(&self, _: Actor) {}
}
