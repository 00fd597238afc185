// The messages of a box, one after the other.
ghost use Rattle.std.specs.Prelude.{◌≡◌};
ghost use Rattle.std.specs.Iterator.{YieldsFirst, item_count};
ghost use Rattle.mail_box.specs.Spelling.{messages_of};

use crate::mailbox::Mailbox;
use crate::message::Message;
use std::marker::Model;

/// The messages of a box with their slots. A contract sees those that are still to come.
#[derive(Debug, Drop)]
pub struct Messages<'a> {
    mailbox: &'a Mailbox,
    next: usize,
}

impl<'a> Model for Messages<'a> {
    ghost use Rattle.std.specs.Prelude.{ℕ, List};
    ghost use Rattle.mail_box.specs.declared.message.Message.{Message};
    ghost use Rattle.mail_box.specs.Spelling.{messages_from};

    ghost Value = { List (ℕ × Message) };

    ghost view = { λ m. messages_from m.mailbox.now m.next };
}

impl<'a> Messages<'a> {
    // The messages of a box.
    pub(crate) fn new(mailbox: &'a Mailbox) -> Messages<'a>
        ensures { result ≡ messages_of mailbox.now }
    {
        if mailbox.is_sealed() {
            Messages { mailbox, next: 0 }
        } else {
            Messages { mailbox, next: 63 }
        }
    }
}

impl<'a> Iterator for Messages<'a> {
    type Item = (usize, Message);

    ghost next_gives = { YieldsFirst (λ messages. messages) };

    ghost remaining = { item_count (λ messages. messages) };

    fn next(&mut self) -> Option<(usize, Message)> {
        while self.next < 63 {
            let k = self.next;
            self.next += 1;
            if let Some(message) = Message::read(self.mailbox.slot(k)) {
                return Some((k, message));
            }
        }
        None
    }
}
