//! The messages that a counterparty received.

ghost use Rattle.std.specs.Prelude.{◌≡◌, ◌∷◌, [], ◌++◌, OnOk, OnErr};
ghost use Rattle.sef_client.specs.Heard.{applications, is_application};

use fix_dictionary::{Body, Message};
use std::alloc::{AllocError, Global};
use std::marker::Model;

/// The messages that a counterparty received: each session message as it came, and each application message once, in
/// the order of sequence numbers (34). Messages with a higher or an earlier number are not among them.
#[derive(Drop)]
pub struct Heard {
    messages: Vec<Message>,
}

impl Model for Heard {
    ghost use Rattle.std.specs.Prelude.{List};
    ghost use Rattle.fix_dictionary.specs.declared.messages.Message.{Message};

    ghost Value = { List Message };

    ghost view = { λ h. h.messages.items };
}

impl Heard {
    pub(crate) fn new(alloc: Global) -> Heard
        ensures { result ≡ [] }
    {
        Heard {
            messages: Vec::new(alloc),
        }
    }

    pub(crate) fn push(&mut self, message: Message) -> Result<(), AllocError>
        ensures ok { OnOk result (self.new ≡ self.old ++ message ∷ []) }
        ensures err { OnErr result (self.new ≡ self.old) }
    {
        self.messages.push(message)?;
        Ok(())
    }

    /// The count of application messages received.
    pub fn applications(&self) -> usize
        ensures { result ≡ applications self.now }
    {
        applications_in(&self.messages)
    }

    /// The messages, in the order in which they were received.
    pub fn as_slice(&self) -> &[Message]
        ensures { result.now ≡ self.now }
    {
        &self.messages
    }
}

// The count of application messages among these.
fn applications_in(messages: &[Message]) -> usize
    ensures { result ≡ applications messages.now }
{
    let mut count = 0;
    for message in messages {
        if is_application(message) {
            count += 1;
        }
    }
    count
}

/// Whether a message is no session message.
pub(crate) fn is_application(message: &Message) -> bool
    ensures { result ≡ is_application message.now }
{
    match message.body {
        Body::App(_) => true,
        Body::Admin(_) => false,
    }
}
