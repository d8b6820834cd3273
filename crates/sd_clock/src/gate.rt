//! What is called before a directory is asked.

/// What a session calls before it asks a directory: once after each pick of a server, before the dial. One for tests
/// may wait there, so that other sessions go on meanwhile, or count its calls.
pub trait Gate {
    /// A server, counted from 0, is about to be dialled.
    fn before_directory(&self, server: u32);
}

/// A gate that does nothing.
#[derive(Clone, Copy)]
pub struct OpenGate;

impl Gate for OpenGate {
    fn before_directory(&self, _server: u32) {}
}
