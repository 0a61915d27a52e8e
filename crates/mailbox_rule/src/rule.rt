//! The protocol of the queue: what each pass knows, and how each kind of step changes it.

use crossbeam_queue::protocol::{Join, Lesson, Outcome, Protocol, Split};
use std::collections::LinkedList;

/// What a pass of the queue knows. No value of it is made.
pub enum View<M> {
    Sender(SenderView<M>),
    Receiver(ReceiverView<M>),
    /// Of an ended sender, whose list the receiver has taken in.
    Spent,
}

/// What a sender knows: its number, from 1, and all that it sent, in order.
pub struct SenderView<M> {
    pub number: u16,
    pub sent: LinkedList<M>,
}

/// What the receiver knows: the number that the next sender is given, all that was received, each
/// message with its sender's number, and all that each sender sent that was taken in.
pub struct ReceiverView<M> {
    pub made: u16,
    pub received: LinkedList<(u16, M)>,
    pub ended: LinkedList<(u16, LinkedList<M>)>,
}

/// The rule of the queue.
pub struct Mailbox;

impl<M> Protocol<(u16, M), View<M>> for Mailbox {
    ghost use Rattle.std.specs.Prelude.{[]};
    ghost use Rattle.mailbox_rule.specs.Rule.{Delivers, receiver};

    ghost holds = { Delivers };

    ghost first = { receiver 1 [] [] };
}

/// A sender pushes a message.
pub struct Push;

impl<M> Outcome<(u16, M), View<M>> for Push {
    ghost use Rattle.std.specs.Prelude.{◌≡◌, ◌++◌, ◌∷◌, []};
    ghost use Rattle.mailbox_rule.specs.Rule.{number_in, sender, sent_in};

    ghost then = { λ before message now.
        now ≡ sender (number_in before) (sent_in before ++ message.1 ∷ []) };
}

/// The receiver pops a message, or finds the queue empty.
pub struct Pop;

impl<M> Outcome<(u16, M), View<M>> for Pop {
    ghost use Rattle.mailbox_rule.specs.Rule.{Popped};

    ghost then = { Popped };
}

impl<M> Lesson<(u16, M), View<M>> for Pop {
    ghost use Rattle.mailbox_rule.specs.Rule.{AreWhole};

    ghost fact = { AreWhole };
}

/// The receiver makes a sender, which has the next number and has sent nothing.
pub struct Making;

impl<M> Split<View<M>> for Making {
    ghost use Rattle.std.specs.Prelude.{[], ◌+◌};
    ghost use Rattle.mailbox_rule.specs.Rule.{ended_in, made_in, received_in, receiver, sender};

    ghost left = { λ view. receiver (made_in view + 1) (received_in view) (ended_in view) };

    ghost right = { λ view. sender (made_in view) [] };
}

/// The receiver takes in an ended sender, with all that it sent.
pub struct Ending;

impl<M> Join<View<M>> for Ending {
    ghost use Rattle.std.specs.Prelude.{◌∷◌};
    ghost use Rattle.mailbox_rule.specs.Rule.{ended_in, made_in, number_in, received_in, receiver, sent_in};
    ghost use Rattle.mailbox_rule.specs.declared.rule.View.TheVariants.{Spent};

    ghost both = { λ view ended. receiver (made_in view) (received_in view)
        ((number_in ended, sent_in ended) ∷ ended_in view) };

    ghost spent = { Spent };
}

/// The receiver looks at the queue, after it has taken a sender in.
pub struct Look;

impl<M> Lesson<(u16, M), View<M>> for Look {
    ghost use Rattle.mailbox_rule.specs.Rule.{AreFronts};

    ghost fact = { λ view _. AreFronts view };
}
