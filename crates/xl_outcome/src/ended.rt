use crate::stopped::Stopped;

/// How a command came to its end, and the shelf that was handed in.
#[derive(Drop)]
pub struct CommandEnd<D> {
    pub result: Result<(), Stopped>,
    pub shelf: D,
}
