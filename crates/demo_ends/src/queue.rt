// The messages of a queue, each as the datagram that it goes out as.
ghost use Rattle.std.specs.Iterator.{YieldsFirstRef, item_count};
ghost use Rattle.codec.specs.Calls.{cut};

// What is left of the queue.
#[derive(Clone, Copy)]
pub struct Datagrams<'a>(pub &'a [u8]);

impl<'a> Iterator for Datagrams<'a> {
    type Item = &'a [u8];

    ghost next_gives = { YieldsFirstRef (λ s. cut s.0.now) };

    ghost remaining = { item_count (λ s. cut s.0.now) };

    #[tactic(auto, using(codec::proofs::Queue::cut_first, codec::proofs::Queue::cut_empty, codec::proofs::Queue::message_end_inside))]
    fn next(&mut self) -> Option<&'a [u8]> {
        if self.0.is_empty() {
            return None;
        }
        let (first, rest) = self.0.split_at(codec::message_end(self.0, 0));
        self.0 = rest;
        Some(first)
    }
}
