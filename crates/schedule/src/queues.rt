//! The queues of edges.
ghost use Rattle.std.specs.Prelude.{◌≡◌, ◌∷◌, ◌++◌, [], replicate, slice_index_or, slice_set, IfOk, OnOk, IfSome, IfNone};
ghost use Rattle.packet.specs.Outboxes.{packets_on};
ghost use Rattle.protocol.specs.{Edges.pushed, Edges.queue, Edges.with_queue, Worlds.no_queues};
ghost use Rattle.schedule.specs.Taken.{IsTaken, IsTakenFrom};

use packet::edges::Edges;
use std::alloc::{AllocError, Global};
use std::collections::VecDeque;
use std::marker::Model;

/// The messages on one edge, in the order in which they come.
#[derive(Drop)]
struct Queue<P: Drop> {
    messages: VecDeque<P>,
}

impl<P: Drop> Model for Queue<P> {
    ghost use Rattle.std.specs.Prelude.{List};

    ghost Value = { List P };

    ghost view = { λ q. q.messages.items };
}

impl<P: Drop> Queue<P> {
    /// No message.
    fn new(alloc: Global) -> Queue<P>
        ensures { result ≡ [] }
    {
        Queue {
            messages: VecDeque::new(alloc),
        }
    }

    /// The first message, taken off; `None` where there is none.
    fn take(&mut self) -> Option<P>
        ensures none { IfNone result (self.old ≡ []) }
        ensures same { IfNone result (self.new ≡ self.old) }
        ensures first { IfSome result (λ k. self.old ≡ k ∷ self.new) }
    {
        self.messages.pop_front()
    }

    /// Puts these last. Errors: memory only.
    fn append(&mut self, more: Vec<P>) -> Result<(), AllocError>
        ensures { OnOk result (self.new ≡ self.old ++ more.items) }
    {
        let mut more = VecDeque::from_vec(more);
        self.messages.append(&mut more)
    }
}

/// The queues to one receiver, by sender.
#[derive(Drop)]
struct Inbox<P: Drop> {
    queues: Vec<Queue<P>>,
}

impl<P: Drop> Model for Inbox<P> {
    ghost use Rattle.std.specs.Prelude.{List};

    ghost Value = { List (List P) };

    ghost view = { λ b. b.queues.items };
}

impl<P: Drop> Inbox<P> {
    /// Empty queues from this many senders. Errors: memory only.
    fn new(alloc: Global, senders: usize) -> Result<Inbox<P>, AllocError>
        ensures { IfOk result (λ b. b ≡ replicate senders []) }
    {
        let mut queues = Vec::new(alloc);
        for _ in 0..senders {
            queues.push(Queue::new(alloc))?;
        }
        Ok(Inbox { queues })
    }

    /// The first message from a sender, taken off; `None` where there is none.
    fn take(&mut self, sender: usize) -> Option<P>
        ensures none { IfNone result (slice_index_or self.old sender [] ≡ []) }
        ensures same { IfNone result (self.new ≡ self.old) }
        ensures first { IfSome result (λ k. IsTakenFrom self.old sender k self.new) }
    {
        if sender < self.queues.len() {
            self.queues[sender].take()
        } else {
            None
        }
    }

    /// Puts these last on the queue from a sender, if it is one. Errors: memory only.
    fn append(&mut self, sender: usize, more: Vec<P>) -> Result<(), AllocError>
        ensures { OnOk result (self.new ≡ slice_set self.old sender
            (slice_index_or self.old sender [] ++ more.items)) }
    {
        if sender < self.queues.len() {
            self.queues[sender].append(more)?;
        }
        Ok(())
    }
}

/// The queue of each edge of a kind, by receiver and then by sender.
#[derive(Drop)]
pub struct Queues<P: Drop> {
    inboxes: Vec<Inbox<P>>,
}

impl<P: Drop> Model for Queues<P> {
    ghost use Rattle.std.specs.Prelude.{List};

    ghost Value = { List (List (List P)) };

    ghost view = { λ q. q.inboxes.items };
}

impl<P: Drop> Queues<P> {
    /// Empty queues to each of `receivers` from each of `senders`. Errors: memory only.
    pub fn new(alloc: Global, receivers: usize, senders: usize) -> Result<Queues<P>, AllocError>
        ensures { IfOk result (λ q. q ≡ no_queues receivers senders) }
    {
        let mut inboxes = Vec::new(alloc);
        for _ in 0..receivers {
            inboxes.push(Inbox::new(alloc, senders)?)?;
        }
        Ok(Queues { inboxes })
    }

    /// The first message to a receiver from a sender, taken off; `None` where there is none. Takes
    /// no memory. Constant time.
    pub fn take(&mut self, receiver: usize, sender: usize) -> Option<P>
        ensures none { IfNone result (queue self.old receiver sender ≡ []) }
        ensures same { IfNone result (self.new ≡ self.old) }
        ensures first { IfSome result (λ k. IsTaken self.old receiver sender k self.new) }
    {
        if receiver < self.inboxes.len() {
            self.inboxes[receiver].take(sender)
        } else {
            None
        }
    }

    /// Puts these last on the queue to a receiver from a sender, if there is the queue.
    fn append(&mut self, receiver: usize, sender: usize, more: Vec<P>) -> Result<(), AllocError>
        ensures { OnOk result (self.new ≡ with_queue self.old receiver sender
            (queue self.old receiver sender ++ more.items)) }
    {
        if receiver < self.inboxes.len() {
            self.inboxes[receiver].append(sender, more)?;
        }
        Ok(())
    }

    /// Puts what is on the edges last on the queues from a sender, to each receiver its own.
    /// Errors: memory only; then nothing is said of the queues. Cost: a move of each message, and
    /// constant time for each receiver.
    pub fn push(
        &mut self,
        alloc: Global,
        sender: usize,
        mut out: Edges<P>,
    ) -> Result<(), AllocError>
        ensures { OnOk result (self.new ≡ pushed sender (packets_on out) self.old) }
    {
        for receiver in 0..out.count() {
            let more = out.take(alloc, receiver);
            self.append(receiver, sender, more)?;
        }
        Ok(())
    }
}
